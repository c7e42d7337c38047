// Records of any layout: a map byte, then only the fields whose bit stands. A layout is a list of fields, so that a field that is added later
// lengthens the list, and nothing here.
#![tactic(auto)]

ghost use Rattle.std.specs.Prelude.{◌≡◌, ◌&&◌, cond, ◌++◌, ◌+◌, ◌<◌, ◌≤◌, eqb, length, drop};
ghost use Rattle.places.specs.Places.{firsts};
ghost use Rattle.places.specs.Put.{put_at};
ghost use Rattle.words.specs.Word.{with_bit};
ghost use Rattle.refusals.specs.Refusals.{answered};
ghost use Rattle.records.specs.Layout.{Laid, stands};
ghost use Rattle.records.specs.Reading.{size_in, needed, value_in, values_in, stray_bits, restated, read_record, read_in_places, said_of};
ghost use Rattle.records.specs.Writing.{is_written, map_of, field_of, body_of, record_of};

use refusals::Refusal;

// A field of a record: its bit in the map byte, its bytes, and its value where it is absent.
#[derive(Clone, Copy)]
pub struct Field {
    pub bit: u16,
    pub size: usize,
    pub absent: u64,
}

// A layout: fields of which each has a bit of the map byte for itself.
#[derive(Clone, Copy)]
pub struct Layout<const N: usize> {
    pub fields: [Field; N],
    ghost laid: { Laid fields },
}

// What a record says: the values of its fields and its length.
#[derive(Clone, Copy)]
pub struct Record<const N: usize> {
    pub values: [u64; N],
    pub used: usize,
}

// The bytes that a field takes under a map byte.
fn size_in(map: u64, field: Field) -> usize
    requires { field.bit < 8 }
    ensures { result ≡ size_in map field }
{
    if words::has_bit(map, field.bit) {
        field.size
    } else {
        0
    }
}

// A field's value, from the bytes that start at it.
fn value_in(rest: &[u8], map: u64, field: Field) -> u64
    requires { (field.bit < 8) × (field.size ≤ 8) × (size_in map field ≤ length rest.now) }
    ensures { result ≡ value_in map field rest.now }
{
    if words::has_bit(map, field.bit) {
        return numbers::read_number(rest, field.size);
    }
    field.absent
}

// Whether a field is written and has its absent value.
fn is_restated(map: u64, field: Field, value: u64) -> bool
    requires { field.bit < 8 }
    ensures { result ≡ (stands map field && eqb value field.absent) }
{
    words::has_bit(map, field.bit) && value == field.absent
}

// Whether a field is written: one equal to its absent value never is.
fn is_written(field: Field, value: u64) -> bool
    ensures { result ≡ is_written field value }
{
    value != field.absent
}

// A map byte with the bit of a field, where the field is written.
fn map_with(map: u64, field: Field, value: u64) -> u64
    requires { field.bit < 8 }
    ensures { result ≡ cond (is_written field value) (with_bit 64 map field.bit) map }
{
    if is_written(field, value) {
        return words::set_bit(map, field.bit);
    }
    map
}

// The bytes that a field is written in.
fn field_length(field: Field, value: u64) -> usize
    ensures { result ≡ length (field_of field value) }
{
    if is_written(field, value) {
        field.size
    } else {
        0
    }
}

// A field at a place of a buffer, where it is written, and the place after it.
fn put_field(buffer: &mut [u8], at: usize, field: Field, value: u64) -> usize
    requires { at + length (field_of field value) ≤ length buffer.old }
    ensures { (result ≡ at + length (field_of field value)) × (buffer.new ≡ put_at at (field_of field value) buffer.old) }
{
    if is_written(field, value) {
        numbers::write_number(&mut buffer[at..], field.size, value);
        return at + field.size;
    }
    at
}

// The bytes that the bits of a map byte need.
fn needed(map: u64, fields: &[Field]) -> usize
    requires { Laid fields.now }
    ensures { (result ≡ needed fields.now map) × (result ≤ 64) }
{
    fields.iter().map(|field| size_in(map, *field)).sum()
}

// The bits of a map byte that are no field's.
fn stray_bits(map: u64, fields: &[Field]) -> u64
    requires { Laid fields.now × (map < 256) }
    ensures { result ≡ stray_bits fields.now map }
{
    let mut left = map;
    for field in fields {
        left = words::clear_bit(left, field.bit);
    }
    left
}

// The values of all fields of a record with this map byte, and 0 in the places past them.
fn values_in<const N: usize>(rest: &[u8], map: u64, fields: &[Field]) -> [u64; N]
    requires { Laid fields.now × (length fields.now ≤ N) × (1 + needed fields.now map ≤ length rest.now) }
    ensures { result ≡ firsts N (values_in fields.now map (drop 1 rest.now)) 0 }
{
    let mut values = [0u64; N];
    let mut at = 1;
    for (j, field) in fields.iter().enumerate() {
        values[j] = value_in(&rest[at..], map, *field);
        at += size_in(map, *field);
    }
    values
}

// Whether some field is written and has its absent value.
fn restated(map: u64, fields: &[Field], values: &[u64]) -> bool
    requires { Laid fields.now × (length values.now ≡ length fields.now) }
    ensures { result ≡ restated fields.now map values.now }
{
    // Kept: by any the proof didn't close.
    for (field, value) in fields.iter().zip(values) {
        if is_restated(map, *field, *value) {
            return true;
        }
    }
    false
}

// The record that starts `rest`, with the values of its fields, of which there are at most N, and 0 in the places past them. The form asked for:
// "The record reader is handed the file's remaining part and answers fields and length used".
pub fn read_record<const N: usize>(rest: &[u8], fields: &[Field]) -> Result<Record<N>, Refusal>
    requires { Laid fields.now × (length fields.now ≤ N) }
    ensures { answered said_of result ≡ read_in_places N fields.now rest.now }
{
    if rest.is_empty() {
        return Err(Refusal::ShortRecord);
    }
    let map = u64::from(rest[0]);
    let used = 1 + needed(map, fields);
    let stray = stray_bits(map, fields);
    if rest.len() < used {
        return Err(Refusal::ShortRecord);
    }
    if stray != 0 {
        return Err(Refusal::StrayBit);
    }
    let values = values_in(rest, map, fields);
    if restated(map, fields, &values[..fields.len()]) {
        return Err(Refusal::AbsentWritten);
    }
    Ok(Record { values, used })
}

// The map byte of a record.
fn map_of(fields: &[Field], values: &[u64]) -> u64
    requires { Laid fields.now × (length values.now ≡ length fields.now) }
    ensures { (result ≡ map_of fields.now values.now) × (result < 256) }
{
    let mut map = 0;
    for (field, value) in fields.iter().zip(values) {
        map = map_with(map, *field, *value);
    }
    map
}

// The length of a record.
pub fn record_length(fields: &[Field], values: &[u64]) -> usize
    requires { Laid fields.now × (length values.now ≡ length fields.now) }
    ensures { (result ≡ length (record_of fields.now values.now)) × (result ≤ 65) }
{
    // Kept: by map and sum the proof didn't close.
    let mut total = 1;
    for (field, value) in fields.iter().zip(values) {
        total += field_length(*field, *value);
    }
    total
}

// The fields of a record from place 1 of a buffer on, and the place after them.
fn put_fields(buffer: &mut [u8], fields: &[Field], values: &[u64]) -> usize
    requires { Laid fields.now × (length values.now ≡ length fields.now) × (1 + length (body_of fields.now values.now) ≤ length buffer.old) }
    ensures { (result ≡ 1 + length (body_of fields.now values.now)) × (buffer.new ≡ put_at 1 (body_of fields.now values.now) buffer.old) }
{
    let mut at = 1;
    for (field, value) in fields.iter().zip(values) {
        at = put_field(buffer, at, *field, *value);
    }
    at
}

// A record at the start of `rest`, and its length. The form asked for: "Each link record is written by a function lent the rest of the image buffer".
pub fn write_record(rest: &mut [u8], fields: &[Field], values: &[u64]) -> usize
    requires { Laid fields.now × (length values.now ≡ length fields.now) × (length (record_of fields.now values.now) ≤ length rest.old) }
    ensures { (result ≡ length (record_of fields.now values.now)) × (rest.new ≡ record_of fields.now values.now ++ drop result rest.old) }
{
    rest[0] = map_of(fields, values) as u8;
    put_fields(rest, fields, values)
}

impl<const N: usize> Layout<N> {
    // The record that starts `rest`.
    pub fn read_record(&self, rest: &[u8]) -> Result<Record<N>, Refusal>
        ensures { answered said_of result ≡ read_record self.now.fields rest.now }
    {
        read_record(rest, &self.fields)
    }

    // The length of a record.
    pub fn record_length(&self, values: &[u64; N]) -> usize
        ensures { (result ≡ length (record_of self.now.fields values.now)) × (result ≤ 65) }
    {
        record_length(&self.fields, values)
    }

    // A record at the start of `rest`, and its length.
    pub fn write_record(&self, rest: &mut [u8], values: &[u64; N]) -> usize
        requires { length (record_of self.now.fields values.now) ≤ length rest.old }
        ensures { (result ≡ length (record_of self.now.fields values.now)) × (rest.new ≡ record_of self.now.fields values.now ++ drop result rest.old) }
    {
        write_record(rest, &self.fields, values)
    }
}
