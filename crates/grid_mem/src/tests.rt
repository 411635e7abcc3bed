mod devices;
mod pictures;
