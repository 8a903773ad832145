//! A field table and its values.

/// A value of a field table, by the kinds of RabbitMQ's table of field types.
#[cycle(table)]
#[derive(Debug, Drop)]
pub enum FieldValue {
    /// `t`: a truth value.
    Bool(bool),
    /// `b`: a signed octet.
    I8(i8),
    /// `B`: an octet.
    U8(u8),
    /// `s`: a signed short.
    I16(i16),
    /// `u`: a short.
    U16(u16),
    /// `I`: a signed long.
    I32(i32),
    /// `i`: a long.
    U32(u32),
    /// `l`: a signed long-long.
    I64(i64),
    /// `f`: the four octets of a float.
    F32([u8; 4]),
    /// `d`: the eight octets of a double.
    F64([u8; 8]),
    /// `D`: the scale and the four octets of a decimal.
    Decimal([u8; 5]),
    /// `S`: a long string, any octets.
    Text(Vec<u8>),
    /// `A`: values in order.
    Array(Vec<FieldValue>),
    /// `T`: seconds since 1970.
    Time(u64),
    /// `F`: a table in a table.
    Table(Table),
    /// `V`: no value.
    Void,
    /// `x`: octets.
    Bytes(Vec<u8>),
}

/// Names and values in order; a name may stand more than once.
#[cycle(table)]
#[derive(Debug, Drop)]
pub struct Table {
    /// The names, which are UTF-8, each with its value.
    pub pairs: Vec<(String, FieldValue)>,
}

impl Table {
    ghost use Rattle.std.specs.Prelude.{◌≡◌, option_map};
    ghost use Rattle.field_tables.specs.Fields.{first_of};
    ghost use Rattle.field_tables.specs.View.{field_view, table_view};

    /// The value of the first pair of that name; `None` exactly where there is no such pair.
    pub fn get(&self, name: &str) -> Option<&FieldValue>
        ensures { option_map (λ v. field_view v.now) result
            ≡ first_of name.now (table_view self.now) }
    {
        for (key, value) in &self.pairs {
            if key.as_str() == name {
                return Some(value);
            }
        }
        None
    }
}
