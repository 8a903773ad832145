//! Payloads and methods: each row of the table of methods once, and its arms of the reader and the writer.

ghost use Rattle.std.specs.Prelude.{◌≡◌, ◌++◌, List, ℕ, [], OnOk, OnErr, take, drop, true, false, IfOk, IsTrue, IsErrOf, Ok};
ghost use Rattle.std.specs.Int.{w16, from_be_bytes};
ghost use Rattle.field_tables.specs.Reading.{number_at};
ghost use Rattle.field_tables.specs.Writing.{Appends};
ghost use Rattle.amqp_methods.specs.Methods.{Call, IsCall, SpellsCall, FitArguments, call_spelling};
ghost use Rattle.amqp_methods.specs.Rows.{kinds_in, kinds_of, any_copied, connection_rows, channel_rows, exchange_rows, queue_rows, basic_rows, delivery_rows, confirm_rows, tx_rows};
ghost use Rattle.amqp_methods.specs.View.{call_of};
ghost use Rattle.amqp_methods.specs.Reading.{Gives, otherwise, row_at, call_at, copies};

use crate::arguments::{
    bit_of, end_of, long_of, long_string_of, longlong_of, octet_of, short_of, short_string_of,
    string_of, table_of, vec_of,
};
use crate::fault::MethodFault;
use crate::method::Method;
use crate::spelling::{Argument, put_call};
use std::alloc::{AllocError, Global};

/// The rows of class 10, connection.
macro_rules! connection_rows {
    ($next:ident $($before:tt)*) => {
        $next! { $($before)*
            10 10 ConnectionStart {
                0 octet version_major, 1 octet version_minor, 2 table server_properties,
                3 long_string mechanisms, 4 long_string locales
            }
            10 11 ConnectionStartOk {
                0 table client_properties, 1 short_string mechanism, 2 long_string response,
                3 short_string locale
            }
            10 20 ConnectionSecure { 0 long_string challenge }
            10 21 ConnectionSecureOk { 0 long_string response }
            10 30 ConnectionTune { 0 short channel_max, 1 long frame_max, 2 short heartbeat }
            10 31 ConnectionTuneOk { 0 short channel_max, 1 long frame_max, 2 short heartbeat }
            10 40 ConnectionOpen {
                0 short_string virtual_host, 1 reserved_short_string, 2 reserved_bit
            }
            10 41 ConnectionOpenOk { 0 reserved_short_string }
            10 50 ConnectionClose {
                0 short reply_code, 1 short_string reply_text, 2 short class_id, 3 short method_id
            }
            10 51 ConnectionCloseOk {}
            10 60 ConnectionBlocked { 0 short_string reason }
            10 61 ConnectionUnblocked {}
        }
    };
}

/// The rows of class 20, channel.
macro_rules! channel_rows {
    ($next:ident $($before:tt)*) => {
        $next! { $($before)*
            20 10 ChannelOpen { 0 reserved_short_string }
            20 11 ChannelOpenOk { 0 reserved_long_string }
            20 20 ChannelFlow { 0 bits { 0 active } }
            20 21 ChannelFlowOk { 0 bits { 0 active } }
            20 40 ChannelClose {
                0 short reply_code, 1 short_string reply_text, 2 short class_id, 3 short method_id
            }
            20 41 ChannelCloseOk {}
        }
    };
}

/// The rows of class 40, exchange.
macro_rules! exchange_rows {
    ($next:ident $($before:tt)*) => {
        $next! { $($before)*
            40 10 ExchangeDeclare {
                0 reserved_short, 1 short_string exchange, 2 short_string kind,
                3 bits { 0 passive, 1 durable, 2 auto_delete, 3 internal, 4 no_wait },
                8 table arguments
            }
            40 11 ExchangeDeclareOk {}
            40 20 ExchangeDelete {
                0 reserved_short, 1 short_string exchange, 2 bits { 0 if_unused, 1 no_wait }
            }
            40 21 ExchangeDeleteOk {}
            40 30 ExchangeBind {
                0 reserved_short, 1 short_string destination, 2 short_string source,
                3 short_string routing_key, 4 bits { 0 no_wait }, 5 table arguments
            }
            40 31 ExchangeBindOk {}
            40 40 ExchangeUnbind {
                0 reserved_short, 1 short_string destination, 2 short_string source,
                3 short_string routing_key, 4 bits { 0 no_wait }, 5 table arguments
            }
            40 51 ExchangeUnbindOk {}
        }
    };
}

/// The rows of class 50, queue.
macro_rules! queue_rows {
    ($next:ident $($before:tt)*) => {
        $next! { $($before)*
            50 10 QueueDeclare {
                0 reserved_short, 1 short_string queue,
                2 bits { 0 passive, 1 durable, 2 exclusive, 3 auto_delete, 4 no_wait },
                7 table arguments
            }
            50 11 QueueDeclareOk {
                0 short_string queue, 1 long message_count, 2 long consumer_count
            }
            50 20 QueueBind {
                0 reserved_short, 1 short_string queue, 2 short_string exchange,
                3 short_string routing_key, 4 bits { 0 no_wait }, 5 table arguments
            }
            50 21 QueueBindOk {}
            50 30 QueuePurge { 0 reserved_short, 1 short_string queue, 2 bits { 0 no_wait } }
            50 31 QueuePurgeOk { 0 long message_count }
            50 40 QueueDelete {
                0 reserved_short, 1 short_string queue,
                2 bits { 0 if_unused, 1 if_empty, 2 no_wait }
            }
            50 41 QueueDeleteOk { 0 long message_count }
            50 50 QueueUnbind {
                0 reserved_short, 1 short_string queue, 2 short_string exchange,
                3 short_string routing_key, 4 table arguments
            }
            50 51 QueueUnbindOk {}
        }
    };
}

/// The rows of class 60, basic, up to return.
macro_rules! basic_rows {
    ($next:ident $($before:tt)*) => {
        $next! { $($before)*
            60 10 BasicQos { 0 long prefetch_size, 1 short prefetch_count, 2 bits { 0 global } }
            60 11 BasicQosOk {}
            60 20 BasicConsume {
                0 reserved_short, 1 short_string queue, 2 short_string consumer_tag,
                3 bits { 0 no_local, 1 no_ack, 2 exclusive, 3 no_wait }, 7 table arguments
            }
            60 21 BasicConsumeOk { 0 short_string consumer_tag }
            60 30 BasicCancel { 0 short_string consumer_tag, 1 bits { 0 no_wait } }
            60 31 BasicCancelOk { 0 short_string consumer_tag }
            60 40 BasicPublish {
                0 reserved_short, 1 short_string exchange, 2 short_string routing_key,
                3 bits { 0 mandatory, 1 immediate }
            }
            60 50 BasicReturn {
                0 short reply_code, 1 short_string reply_text, 2 short_string exchange,
                3 short_string routing_key
            }
        }
    };
}

/// The rows of class 60, basic, from deliver on.
macro_rules! delivery_rows {
    ($next:ident $($before:tt)*) => {
        $next! { $($before)*
            60 60 BasicDeliver {
                0 short_string consumer_tag, 1 longlong delivery_tag, 2 bits { 0 redelivered },
                3 short_string exchange, 4 short_string routing_key
            }
            60 70 BasicGet { 0 reserved_short, 1 short_string queue, 2 bits { 0 no_ack } }
            60 71 BasicGetOk {
                0 longlong delivery_tag, 1 bits { 0 redelivered }, 2 short_string exchange,
                3 short_string routing_key, 4 long message_count
            }
            60 72 BasicGetEmpty { 0 reserved_short_string }
            60 80 BasicAck { 0 longlong delivery_tag, 1 bits { 0 multiple } }
            60 90 BasicReject { 0 longlong delivery_tag, 1 bits { 0 requeue } }
            60 100 BasicRecoverAsync { 0 bits { 0 requeue } }
            60 110 BasicRecover { 0 bits { 0 requeue } }
            60 111 BasicRecoverOk {}
            60 120 BasicNack { 0 longlong delivery_tag, 1 bits { 0 multiple, 1 requeue } }
        }
    };
}

/// The rows of class 85, confirm.
macro_rules! confirm_rows {
    ($next:ident $($before:tt)*) => {
        $next! { $($before)*
            85 10 ConfirmSelect { 0 bits { 0 no_wait } }
            85 11 ConfirmSelectOk {}
        }
    };
}

/// The rows of class 90, tx.
macro_rules! tx_rows {
    ($next:ident $($before:tt)*) => {
        $next! { $($before)*
            90 10 TxSelect {}
            90 11 TxSelectOk {}
            90 20 TxCommit {}
            90 21 TxCommitOk {}
            90 30 TxRollback {}
            90 31 TxRollbackOk {}
        }
    };
}

/// Reads an argument of that kind; of a reserved one only its form.
macro_rules! read_argument {
    ($alloc:ident $rest:ident $place:literal octet) => { octet_of($rest, $place) };
    ($alloc:ident $rest:ident $place:literal short) => { short_of($rest, $place) };
    ($alloc:ident $rest:ident $place:literal long) => { long_of($rest, $place) };
    ($alloc:ident $rest:ident $place:literal longlong) => { longlong_of($rest, $place) };
    ($alloc:ident $rest:ident $place:literal short_string) => { string_of($alloc, $rest, $place) };
    ($alloc:ident $rest:ident $place:literal long_string) => { vec_of($alloc, $rest, $place) };
    ($alloc:ident $rest:ident $place:literal table) => { table_of($alloc, $rest, $place) };
    ($alloc:ident $rest:ident $place:literal reserved_short) => { short_of($rest, $place) };
    ($alloc:ident $rest:ident $place:literal reserved_short_string) => { short_string_of($rest, $place) };
    ($alloc:ident $rest:ident $place:literal reserved_long_string) => { long_string_of($rest, $place) };
    ($alloc:ident $rest:ident $place:literal reserved_bit) => { octet_of($rest, $place) };
}

/// An arm of the reader: the arguments one after the other, nothing after them, and the variant. Each is a `match` and no `?`,
/// which takes three calls more to prove.
macro_rules! read_row {
    ($alloc:ident $rest:ident $variant:ident [$($field:ident)*]) => {
        match end_of($rest) {
            Ok(()) => Ok(Method::$variant { $($field),* }),
            Err(fault) => Err(fault),
        }
    };
    ($alloc:ident $rest:ident $variant:ident [$($done:ident)*]
        $place:literal bits { $($number:literal $bit:ident),* } $(, $($more:tt)*)?) => {{
        match octet_of($rest, $place) {
            Ok((shared, rest)) => {
                $(let $bit = bit_of(shared, $number);)*
                read_row!($alloc rest $variant [$($done)* $($bit)*] $($($more)*)?)
            }
            Err(fault) => Err(fault),
        }
    }};
    ($alloc:ident $rest:ident $variant:ident [$($done:ident)*]
        $place:literal $kind:ident $field:ident $(, $($more:tt)*)?) => {{
        match read_argument!($alloc $rest $place $kind) {
            Ok(($field, rest)) => read_row!($alloc rest $variant [$($done)* $field] $($($more)*)?),
            Err(fault) => Err(fault),
        }
    }};
    ($alloc:ident $rest:ident $variant:ident [$($done:ident)*]
        $place:literal $reserved:ident $(, $($more:tt)*)?) => {{
        match read_argument!($alloc $rest $place $reserved) {
            Ok((_, rest)) => read_row!($alloc rest $variant [$($done)*] $($($more)*)?),
            Err(fault) => Err(fault),
        }
    }};
}

/// The reader of a class: an arm for each of its rows.
macro_rules! read_rows {
    ($alloc:ident $id:ident $bytes:ident ($other:expr)
        $($class:literal $row:literal $variant:ident { $($arguments:tt)* })*) => {
        match $id {
            $($row => read_row!($alloc $bytes $variant [] $($arguments)*),)*
            _ => $other,
        }
    };
}

#[tactic(auto, unfolding(crate::specs::View::call_of))]
fn read_connection(alloc: Global, id: u16, bytes: &[u8]) -> Result<Method, MethodFault>
    ensures { Gives (any_copied (kinds_in connection_rows id)) call_of result
        (row_at 10 id (kinds_in connection_rows id) bytes.now) }
{
    connection_rows!(read_rows alloc id bytes (Err(MethodFault::Unknown(10, id))))
}

#[tactic(auto, unfolding(crate::specs::View::call_of))]
fn read_channel(alloc: Global, id: u16, bytes: &[u8]) -> Result<Method, MethodFault>
    ensures { Gives (any_copied (kinds_in channel_rows id)) call_of result
        (row_at 20 id (kinds_in channel_rows id) bytes.now) }
{
    channel_rows!(read_rows alloc id bytes (Err(MethodFault::Unknown(20, id))))
}

#[tactic(auto, unfolding(crate::specs::View::call_of))]
fn read_exchange(alloc: Global, id: u16, bytes: &[u8]) -> Result<Method, MethodFault>
    ensures { Gives (any_copied (kinds_in exchange_rows id)) call_of result
        (row_at 40 id (kinds_in exchange_rows id) bytes.now) }
{
    exchange_rows!(read_rows alloc id bytes (Err(MethodFault::Unknown(40, id))))
}

#[tactic(auto, unfolding(crate::specs::View::call_of))]
fn read_queue(alloc: Global, id: u16, bytes: &[u8]) -> Result<Method, MethodFault>
    ensures { Gives (any_copied (kinds_in queue_rows id)) call_of result
        (row_at 50 id (kinds_in queue_rows id) bytes.now) }
{
    queue_rows!(read_rows alloc id bytes (Err(MethodFault::Unknown(50, id))))
}

#[tactic(auto, unfolding(crate::specs::View::call_of))]
fn read_basic(alloc: Global, id: u16, bytes: &[u8]) -> Result<Method, MethodFault>
    ensures { Gives (any_copied (kinds_in basic_rows id)) call_of result
        (row_at 60 id (kinds_in basic_rows id) bytes.now) }
{
    basic_rows!(read_rows alloc id bytes (read_delivery(alloc, id, bytes)))
}

#[tactic(auto, unfolding(crate::specs::View::call_of))]
fn read_delivery(alloc: Global, id: u16, bytes: &[u8]) -> Result<Method, MethodFault>
    ensures { Gives (any_copied (kinds_in delivery_rows id)) call_of result
        (row_at 60 id (kinds_in delivery_rows id) bytes.now) }
{
    delivery_rows!(read_rows alloc id bytes (Err(MethodFault::Unknown(60, id))))
}

#[tactic(auto, unfolding(crate::specs::View::call_of))]
fn read_confirm(alloc: Global, id: u16, bytes: &[u8]) -> Result<Method, MethodFault>
    ensures { Gives (any_copied (kinds_in confirm_rows id)) call_of result
        (row_at 85 id (kinds_in confirm_rows id) bytes.now) }
{
    confirm_rows!(read_rows alloc id bytes (Err(MethodFault::Unknown(85, id))))
}

#[tactic(auto, unfolding(crate::specs::View::call_of))]
fn read_tx(alloc: Global, id: u16, bytes: &[u8]) -> Result<Method, MethodFault>
    ensures { Gives (any_copied (kinds_in tx_rows id)) call_of result
        (row_at 90 id (kinds_in tx_rows id) bytes.now) }
{
    tx_rows!(read_rows alloc id bytes (Err(MethodFault::Unknown(90, id))))
}

/// The pattern of a row's variant, with its arguments' names.
macro_rules! row_fields {
    ($variant:ident [$($field:ident)*]) => { Method::$variant { $($field),* } };
    ($variant:ident [$($done:ident)*] $place:literal bits { $($number:literal $bit:ident),* } $(, $($more:tt)*)?) => {
        row_fields!($variant [$($done)* $($bit)*] $($($more)*)?)
    };
    ($variant:ident [$($done:ident)*] $place:literal $kind:ident $field:ident $(, $($more:tt)*)?) => {
        row_fields!($variant [$($done)* $field] $($($more)*)?)
    };
    ($variant:ident [$($done:ident)*] $place:literal $reserved:ident $(, $($more:tt)*)?) => {
        row_fields!($variant [$($done)*] $($($more)*)?)
    };
}

/// An argument of that kind, lent; a reserved one is written as 0 or empty.
macro_rules! lend_argument {
    (octet $field:ident) => { Argument::Octet(*$field) };
    (short $field:ident) => { Argument::Short(*$field) };
    (long $field:ident) => { Argument::Long(*$field) };
    (longlong $field:ident) => { Argument::LongLong(*$field) };
    (short_string $field:ident) => { Argument::ShortString($field.as_str()) };
    (long_string $field:ident) => { Argument::LongString($field.as_slice()) };
    (table $field:ident) => { Argument::Table($field) };
    (bits { $($number:literal $bit:ident),* }) => { Argument::Bits(&[$(*$bit),*]) };
    (reserved_short) => { Argument::ReservedShort };
    (reserved_short_string) => { Argument::ReservedShortString };
    (reserved_long_string) => { Argument::ReservedLongString };
    (reserved_bit) => { Argument::ReservedBit };
}

/// The writer: an arm for each row, with the method's class and id, and its arguments.
macro_rules! write_rows {
    ($method:ident $out:ident $($class:literal $id:literal $variant:ident {
        $($place:literal $kind:ident $($name:ident)? $({ $($bits:tt)* })?),*
    })*) => {
        match $method {
            $(row_fields!($variant [] $($place $kind $($name)? $({ $($bits)* })?),*) => put_call(
                $class,
                $id,
                &[$(lend_argument!($kind $($name)? $({ $($bits)* })?)),*],
                $out,
            ),)*
        }
    };
}

#[tactic(auto, unfolding(crate::specs::View::call_of))]
fn put_method(method: &Method, out: &mut Vec<u8>) -> Result<(), AllocError>
    requires { FitArguments (call_of method.now) }
    ensures { Appends result out.old.items out.new.items (call_spelling (call_of method.now)) }
{
    connection_rows!(channel_rows exchange_rows queue_rows basic_rows delivery_rows confirm_rows tx_rows write_rows method out)
}

/// The method of that class and id, whose arguments are all of the octets.
#[tactic(auto, unfolding(crate::specs::Rows::kinds_of))]
fn method_of(alloc: Global, class: u16, id: u16, bytes: &[u8]) -> Result<Method, MethodFault>
    ensures { Gives (any_copied (kinds_of class id)) call_of result (row_at class id (kinds_of class id) bytes.now) }
{
    match class {
        10 => read_connection(alloc, id, bytes),
        20 => read_channel(alloc, id, bytes),
        40 => read_exchange(alloc, id, bytes),
        50 => read_queue(alloc, id, bytes),
        60 => read_basic(alloc, id, bytes),
        85 => read_confirm(alloc, id, bytes),
        90 => read_tx(alloc, id, bytes),
        _ => Err(MethodFault::Unknown(class, id)),
    }
}

/// A number of the class and id, and the octets after it.
#[tactic(auto, unfolding(field_tables::specs::Reading::octets_at, field_tables::specs::Reading::number_at))]
fn head_of(bytes: &[u8]) -> Result<(u16, &[u8]), MethodFault>
    ensures read { Gives false (λ x. (x.0, x.1.now)) result
        (otherwise MethodFault.Short (number_at w16 bytes.now)) }
    ensures number { IfOk result (λ x. x.0 ≡ from_be_bytes w16 (take 2 bytes.now)) }
    ensures rest { IfOk result (λ x. x.1.now ≡ drop 2 bytes.now) }
{
    match bytes.split_first_chunk::<2>() {
        Some((front, rest)) => Ok((u16::from_be_bytes(*front), rest)),
        None => Err(MethodFault::Short),
    }
}

#[tactic(auto, unfolding(crate::specs::Reading::call_at, crate::specs::Reading::copies))]
fn payload_of(alloc: Global, payload: &[u8]) -> Result<Method, MethodFault>
    ensures { Gives (copies payload.now) call_of result (call_at payload.now) }
{
    let (class, rest) = head_of(payload)?;
    let (id, rest) = head_of(rest)?;
    method_of(alloc, class, id, rest)
}

/// The method that a payload spells.
///
/// One pass over the octets; strings and tables are copied, and a method without them takes no memory. AMQP 0-9-1,
/// 2.3.5.1 "Method Frames" and 4.2.4 "Method Payloads".
pub fn read_method(alloc: Global, payload: &[u8]) -> Result<Method, MethodFault>
    // What is read is a method of the table, and the payload spells it.
    ensures found { IfOk result (λ method. IsCall (call_of method) × SpellsCall (call_of method) payload.now) }

    // What spells a method is read, unless memory runs out where strings or tables are copied.
    ensures only { (call : Call) → IsCall call → SpellsCall call payload.now
        → Gives (copies payload.now) call_of result (Ok call) }

    // Which fault it is: the first from left to right.
    ensures exact { Gives (copies payload.now) call_of result (call_at payload.now) }

    // A method without strings and tables takes no memory.
    ensures memory { IsErrOf result MethodFault.Memory → IsTrue (copies payload.now) }
{
    payload_of(alloc, payload)
}

/// Appends the payload of a method whose arguments have a spelling; after an error `out` is as it was.
///
/// Reserved arguments are written as 0 or empty, and unused bits as 0. One pass, straight into `out`, which is cut back
/// where memory runs out. AMQP 0-9-1, 2.3.5.1 "Method Frames" and 4.2.4 "Method Payloads".
pub fn write_method(method: &Method, out: &mut Vec<u8>) -> Result<(), AllocError>
    requires { FitArguments (call_of method.now) }

    ensures ok { OnOk result
        (out.new.items ≡ out.old.items ++ call_spelling (call_of method.now)) }
    ensures err { OnErr result (out.new.items ≡ out.old.items) }

    // What is written spells the method, and so is read again.
    ensures spells { OnOk result (IsCall (call_of method.now)
        × SpellsCall (call_of method.now) (call_spelling (call_of method.now))) }
{
    let start = out.len();
    let written = put_method(method, out);
    if written.is_err() {
        out.truncate(start);
    }
    written
}
