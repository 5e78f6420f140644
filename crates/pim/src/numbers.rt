// The numbers of a run: as JSON, as comma-separated values.
use anyhow::Result;
use csv::Writer;
use serde_json::{Map, Value};
use stats::named::Named;
use stats::statistics::Statistics;
use std::alloc::Global;

/// One JSON object, its keys sorted, and byte 10.
pub fn as_json(heap: Global, statistics: &Statistics) -> Result<Vec<u8>> {
    let mut object = Map::new(heap);
    for Named { name, value } in statistics.named(heap)? {
        object.insert(name, Value::from(value))?;
    }
    let mut out = Value::Object(object).to_vec(heap)?;
    out.push(b'\n')?;
    Ok(out)
}

/// A row of names, then a row for each number.
pub fn as_csv(heap: Global, statistics: &Statistics) -> Result<Vec<u8>> {
    let mut writer = Writer::from_writer(Vec::new(heap));
    writer.write_record(["name", "value"])?;
    for Named { name, value } in statistics.named(heap)? {
        let digits = format!(in heap; "{value}")?;
        writer.write_record([name.as_str(), digits.as_str()])?;
    }
    Ok(writer.into_inner()?)
}
