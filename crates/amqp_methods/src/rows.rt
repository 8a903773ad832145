//! The table of methods.

ghost use Rattle.std.specs.Prelude.{◌≡◌, ◌<◌, ◌==◌, ◌&&◌, length, position, IfSome};
ghost use Rattle.amqp_methods.specs.Table.{letters_of};

/// A row of the table of methods.
#[derive(Clone, Copy, Debug, PartialEq, Eq)]
pub struct Row {
    /// The number of the class.
    pub class: u16,
    /// The number of the method in its class.
    pub id: u16,
    /// The letters of the arguments, filled up with spaces: `o` octet, `s` short, `l` long, `L` long-long, `z` short
    /// string, `Z` long string, `T` table, `b` bit.
    pub args: [u8; 9],
}

/// Each method of AMQP 0-9-1 and of RabbitMQ's extensions, by class and id.
#[rattlefmt::skip]
pub const METHODS: [Row; 62] = [
    Row { class: 10, id: 10, args: *b"ooTZZ    " },
    Row { class: 10, id: 11, args: *b"TzZz     " },
    Row { class: 10, id: 20, args: *b"Z        " },
    Row { class: 10, id: 21, args: *b"Z        " },
    Row { class: 10, id: 30, args: *b"sls      " },
    Row { class: 10, id: 31, args: *b"sls      " },
    Row { class: 10, id: 40, args: *b"zzb      " },
    Row { class: 10, id: 41, args: *b"z        " },
    Row { class: 10, id: 50, args: *b"szss     " },
    Row { class: 10, id: 51, args: *b"         " },
    Row { class: 10, id: 60, args: *b"z        " },
    Row { class: 10, id: 61, args: *b"         " },
    Row { class: 20, id: 10, args: *b"z        " },
    Row { class: 20, id: 11, args: *b"Z        " },
    Row { class: 20, id: 20, args: *b"b        " },
    Row { class: 20, id: 21, args: *b"b        " },
    Row { class: 20, id: 40, args: *b"szss     " },
    Row { class: 20, id: 41, args: *b"         " },
    Row { class: 40, id: 10, args: *b"szzbbbbbT" },
    Row { class: 40, id: 11, args: *b"         " },
    Row { class: 40, id: 20, args: *b"szbb     " },
    Row { class: 40, id: 21, args: *b"         " },
    Row { class: 40, id: 30, args: *b"szzzbT   " },
    Row { class: 40, id: 31, args: *b"         " },
    Row { class: 40, id: 40, args: *b"szzzbT   " },
    Row { class: 40, id: 51, args: *b"         " },
    Row { class: 50, id: 10, args: *b"szbbbbbT " },
    Row { class: 50, id: 11, args: *b"zll      " },
    Row { class: 50, id: 20, args: *b"szzzbT   " },
    Row { class: 50, id: 21, args: *b"         " },
    Row { class: 50, id: 30, args: *b"szb      " },
    Row { class: 50, id: 31, args: *b"l        " },
    Row { class: 50, id: 40, args: *b"szbbb    " },
    Row { class: 50, id: 41, args: *b"l        " },
    Row { class: 50, id: 50, args: *b"szzzT    " },
    Row { class: 50, id: 51, args: *b"         " },
    Row { class: 60, id: 10, args: *b"lsb      " },
    Row { class: 60, id: 11, args: *b"         " },
    Row { class: 60, id: 20, args: *b"szzbbbbT " },
    Row { class: 60, id: 21, args: *b"z        " },
    Row { class: 60, id: 30, args: *b"zb       " },
    Row { class: 60, id: 31, args: *b"z        " },
    Row { class: 60, id: 40, args: *b"szzbb    " },
    Row { class: 60, id: 50, args: *b"szzz     " },
    Row { class: 60, id: 60, args: *b"zLbzz    " },
    Row { class: 60, id: 70, args: *b"szb      " },
    Row { class: 60, id: 71, args: *b"Lbzzl    " },
    Row { class: 60, id: 72, args: *b"z        " },
    Row { class: 60, id: 80, args: *b"Lb       " },
    Row { class: 60, id: 90, args: *b"Lb       " },
    Row { class: 60, id: 100, args: *b"b        " },
    Row { class: 60, id: 110, args: *b"b        " },
    Row { class: 60, id: 111, args: *b"         " },
    Row { class: 60, id: 120, args: *b"Lbb      " },
    Row { class: 85, id: 10, args: *b"b        " },
    Row { class: 85, id: 11, args: *b"         " },
    Row { class: 90, id: 10, args: *b"         " },
    Row { class: 90, id: 11, args: *b"         " },
    Row { class: 90, id: 20, args: *b"         " },
    Row { class: 90, id: 21, args: *b"         " },
    Row { class: 90, id: 30, args: *b"         " },
    Row { class: 90, id: 31, args: *b"         " },
];

fn first_space(args: &[u8]) -> Option<usize>
    ensures place { result ≡ position (λ letter. letter == 32) args.now }
    ensures bound { IfSome result (λ place. place < length args.now) }
{
    args.iter().position(|letter| *letter == b' ')
}

impl Row {
    /// The letters of the arguments, in their order.
    pub fn letters(&self) -> &[u8]
        ensures { result.now ≡ letters_of self.now.args }
    {
        match first_space(&self.args) {
            Some(end) => &self.args[..end],
            None => &self.args,
        }
    }
}

/// The index of the first row of that class and id; `None` exactly where no row has them.
pub fn find<const N: usize>(rows: &[Row; N], class: u16, id: u16) -> Option<usize>
    ensures { result ≡ position (λ row. row.class == class && row.id == id) rows.now }
{
    rows.iter()
        .position(|row| row.class == class && row.id == id)
}
