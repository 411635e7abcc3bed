use crate::{Items, Text};

/// A list of texts, as the words of a line are.
pub type Texts = Items<Text>;
