// Values as bits: those of their first 64 names, and 0 for none.
use prog_data::Value;

// The names of a value as bits.
pub(crate) fn word(value: &Value) -> u64 {
    match &value.names {
        None => 0,
        Some(words) => words[0],
    }
}

// The names of the value in a place.
pub(crate) fn word_at(values: &[Value], place: usize) -> u64 {
    match values.get(place) {
        None => 0,
        Some(value) => word(value),
    }
}
