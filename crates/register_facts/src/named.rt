//! Objects whose values are of one type.

use serde::{Described, Serialize, Serializer};

/// Values by their names, in order.
#[derive(Drop)]
pub struct Named<T>(pub Vec<(&'static str, T)>);

impl<T> Described for Named<T> {}

impl<T: Serialize> Serialize for Named<T> {
    fn serialize<S: Serializer>(&self, out: &mut S) -> Result<(), S::Error> {
        out.begin_map(Some(self.0.len()))?;
        for (name, value) in &self.0 {
            out.key(name)?;
            value.serialize(out)?;
        }
        out.end_map()
    }
}
