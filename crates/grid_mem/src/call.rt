/// A call of a device with its moment, what was asked, and whether it was done.
#[derive(Clone, Debug, Drop)]
pub struct Call<T> {
    pub moment: u128,
    pub deed: T,
    pub done: bool,
}
