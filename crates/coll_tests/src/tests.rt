mod listings;
mod owning;
mod plans;
mod services;
mod start;
