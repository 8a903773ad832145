//! The 14 properties in their order (AMQP 0-9-1, class basic), each with its bit, its kind and its name.

ghost use Rattle.std.specs.Prelude.{◌≡◌, option_map, slice_get};
ghost use Rattle.amqp_props.specs.ContentHeader.{property_rows};
ghost use Rattle.amqp_props.specs.Rows.{row_view};

/// The kind of a property's value (AMQP 0-9-1, 4.2.5 "Data Formats").
#[derive(Clone, Copy, Debug, PartialEq, Eq)]
pub enum PropertyKind {
    /// A text of at most 255 octets.
    ShortString,
    /// A field table.
    Table,
    /// A number of one octet.
    Octet,
    /// A number of eight octets.
    LongLong,
}

/// A property.
#[derive(Clone, Copy, Debug)]
pub struct Row {
    /// Which of the 16 flags says that it is present; 15 is the highest.
    pub bit: u8,
    /// The kind of its value.
    pub kind: PropertyKind,
    /// Its name.
    pub name: &'static str,
}

/// Calls a macro with the 14 properties: the field of each, its place from 0, its bit, its kind and its name.
macro_rules! with_properties {
    ($body:ident $($argument:ident)*) => {
        $body! {
            [$($argument)*]
            content_type 0 15 ShortString "content-type",
            content_encoding 1 14 ShortString "content-encoding",
            headers 2 13 Table "headers",
            delivery_mode 3 12 Octet "delivery-mode",
            priority 4 11 Octet "priority",
            correlation_id 5 10 ShortString "correlation-id",
            reply_to 6 9 ShortString "reply-to",
            expiration 7 8 ShortString "expiration",
            message_id 8 7 ShortString "message-id",
            timestamp 9 6 LongLong "timestamp",
            type_name 10 5 ShortString "type",
            user_id 11 4 ShortString "user-id",
            app_id 12 3 ShortString "app-id",
            reserved 13 2 ShortString "reserved",
        }
    };
}

pub(crate) use with_properties;

macro_rules! rows {
    ([] $($field:ident $place:literal $bit:literal $kind:ident $name:literal,)*) => {
        [$(Row { bit: $bit, kind: PropertyKind::$kind, name: $name }),*]
    };
}

/// The 14 properties in their order.
pub const PROPERTIES: [Row; 14] = with_properties!(rows);

/// The property at that place; `None` exactly where there is none.
pub fn property(place: usize) -> Option<Row>
    ensures { option_map row_view result ≡ slice_get property_rows place }
{
    PROPERTIES.get(place).copied()
}
