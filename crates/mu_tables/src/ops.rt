ghost use Rattle.std.specs.Prelude.{◌≡◌, length, IsTrue};
ghost use Rattle.mu_tables.specs.Operators.{are_operators, row_by_constant, row_by_text};

/// On which side an operator takes an operand of its own level.
#[derive(Clone, Copy, Debug, PartialEq, Eq)]
pub enum Side {
    Neither,
    Left,
    Right,
    /// It stands before its only operand, which may have its own level.
    Prefix,
}

/// An operator: how it is written, its constant, its level and its side.
#[derive(Clone, Copy, Debug)]
pub struct Op {
    pub text: &'static str,
    pub constant: &'static str,
    pub level: u8,
    pub side: Side,
}

/// N operators, in the order of the bytes of their texts. No text and no constant stands twice.
#[derive(Clone, Copy, Debug)]
pub struct Ops<const N: usize> {
    pub(crate) rows: &'static [Op],
    ghost counted: { length rows.now ≡ N },
    ghost sorted: { IsTrue (are_operators rows.now) },
}

impl<const N: usize> Ops<N> {
    /// The operator that is written like this; none where no row has the text.
    pub fn by_text(&self, text: &[u8]) -> Option<Op>
        ensures { result ≡ row_by_text text.now self.now.rows.now }
    {
        find_text(self.rows, text)
    }

    /// The operator of a constant; none where no row has it.
    pub fn by_constant(&self, name: &[u8]) -> Option<Op>
        ensures { result ≡ row_by_constant name.now self.now.rows.now }
    {
        find_constant(self.rows, name)
    }
}

fn find_text(rows: &[Op], text: &[u8]) -> Option<Op>
    ensures { result ≡ row_by_text text.now rows.now }
{
    for row in rows {
        if row.text.as_bytes() == text {
            return Some(*row);
        }
    }
    None
}

fn find_constant(rows: &[Op], name: &[u8]) -> Option<Op>
    ensures { result ≡ row_by_constant name.now rows.now }
{
    for row in rows {
        if row.constant.as_bytes() == name {
            return Some(*row);
        }
    }
    None
}
