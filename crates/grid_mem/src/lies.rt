/// About which files a store lies, and from the call of which number on. Of these files it says that they are empty.
#[derive(Debug, Drop)]
pub struct Lies {
    pub names: Vec<u64>,
    pub from: u64,
}
