//! Room for where the fields of a head stand.

use crate::parse::MAX_FIELDS;
use httparse::spans::{EMPTY_HEADER_SPAN, HeaderSpan};

/// Room for the places of 64 fields. It is made once, and each look writes over it.
#[derive(Drop)]
pub struct FieldPlaces {
    pub(crate) places: [HeaderSpan; MAX_FIELDS],
}

impl FieldPlaces {
    pub fn new() -> FieldPlaces {
        FieldPlaces {
            places: [EMPTY_HEADER_SPAN; MAX_FIELDS],
        }
    }
}
