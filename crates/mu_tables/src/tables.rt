ghost use Rattle.std.specs.Prelude.{◌≡◌};
ghost use Rattle.mu_tables.specs.Words.{rows_of};
ghost use Rattle.mu_tables.specs.Operators.{written};
ghost use Rattle.mu_tables.specs.Tables.{the_forms, the_operators, the_refusals};

use crate::ops::{Op, Ops, Side};
use crate::words::{Row, Words};

/// Rows of texts with their numbers.
macro_rules! words {
    ($($text:literal $number:literal;)*) => {
        &[$(Row { text: $text, number: $number }),*]
    };
}

/// Rows of operators: the text, the constant, the level and the side.
macro_rules! operators {
    ($($text:literal $constant:literal $level:literal $side:ident;)*) => {
        &[$(Op { text: $text, constant: $constant, level: $level, side: Side::$side }),*]
    };
}

/// The forms of commands: the words that a command of the form begins with, with one blank between each two.
pub fn forms() -> Words<27>
    ensures { rows_of result.rows.now ≡ the_forms }
{
    Words {
        rows: words! {
            "alter box" 15;
            "alter const" 5;
            "alter line" 14;
            "alter rule" 10;
            "axiom" 8;
            "box" 13;
            "cite" 17;
            "const" 4;
            "define" 6;
            "drop const" 20;
            "drop item" 23;
            "drop proof" 22;
            "drop rule" 21;
            "drop unit" 19;
            "line" 12;
            "move" 16;
            "parent" 2;
            "proof" 11;
            "rule" 9;
            "show proof" 27;
            "show rule" 26;
            "show unit" 25;
            "status" 24;
            "theory" 1;
            "undefine" 7;
            "unjustify" 18;
            "unparent" 3;
        },
    }
}

/// The refusals: the word that each is told by, with its code.
pub fn refusals() -> Words<12>
    ensures { rows_of result.rows.now ≡ the_refusals }
{
    Words {
        rows: words! {
            "builtin" 6;
            "circle" 8;
            "journal-full" 12;
            "limit" 3;
            "line-too-long" 1;
            "no-match" 9;
            "not-empty" 7;
            "syntax" 2;
            "taken" 5;
            "too-many" 11;
            "undetermined" 10;
            "unknown" 4;
        },
    }
}

/// The operators of the language.
pub fn operators() -> Ops<7>
    ensures { written result.rows.now ≡ the_operators }
{
    Ops {
        rows: operators! {
            ":" "typing" 6 Neither;
            "<=>" "iff" 1 Neither;
            "=" "eq" 6 Neither;
            "=>" "imp" 2 Right;
            "and" "and" 4 Left;
            "not" "not" 5 Prefix;
            "or" "or" 3 Left;
        },
    }
}

#[cfg(test)]
mod tests {
    use super::*;

    #[test]
    fn finds_rows(rt: HostRuntime) {
        assert!(rt; forms().find(b"cite") == Some(17));
        assert!(rt; forms().find(b"cites").is_none());
        assert!(rt; forms().find_behind(b"show ", b"rule") == Some(26));
        assert!(rt; forms().lengthened(b"", b"show").is_some());
        assert!(rt; operators().by_text(b"=>").map(|op| op.side) == Some(Side::Right));
    }
}
