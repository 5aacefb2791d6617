ghost use Rattle.std.specs.Prelude.{◌≡◌, ◌++◌, ℕ, List, OnOk, map};
ghost use Rattle.std.specs.List.{flat_map};
ghost use Rattle.mu_print.specs.Texts.{behind, between, surrounded};

use std::alloc::AllocError;

/// What has a text in lists.
pub(crate) trait Printed {
    ghost text: { Self → List ℕ };

    /// Adds the text at the end.
    fn print(&self, out: &mut Vec<u8>) -> Result<(), AllocError>
        ensures { OnOk result (out.new.items ≡ out.old.items ++ text self.now) };
}

/// Adds bytes at the end.
pub(crate) fn add(out: &mut Vec<u8>, bytes: &[u8]) -> Result<(), AllocError>
    ensures { OnOk result (out.new.items ≡ out.old.items ++ bytes.now) }
{
    out.extend_from_slice(bytes)
}

/// Adds the items with the separator between each two, behind the one text and before the other; nothing where there are none.
pub(crate) fn surround<T: Printed>(
    out: &mut Vec<u8>,
    before: &[u8],
    separator: &[u8],
    after: &[u8],
    items: &[T],
) -> Result<(), AllocError>
    ensures { OnOk result (out.new.items ≡ out.old.items
        ++ surrounded before.now separator.now after.now (map T.text items.now)) }
{
    match items {
        [] => Ok(()),
        _ => {
            add(out, before)?;
            separate(out, separator, items)?;
            add(out, after)
        }
    }
}

/// Adds the items with the separator between each two.
#[tactic(auto, unfolding(crate::specs::Texts::between))]
pub(crate) fn separate<T: Printed>(
    out: &mut Vec<u8>,
    separator: &[u8],
    items: &[T],
) -> Result<(), AllocError>
    ensures { OnOk result (out.new.items ≡ out.old.items ++ between separator.now (map T.text items.now)) }
{
    match items {
        [] => Ok(()),
        [first, rest @ ..] => {
            first.print(out)?;
            add_each(out, separator, rest)
        }
    }
}

/// Adds the items, each behind the separator.
fn add_each<T: Printed>(out: &mut Vec<u8>, separator: &[u8], items: &[T]) -> Result<(), AllocError>
    ensures { OnOk result (out.new.items ≡ out.old.items
        ++ flat_map (behind separator.now) (map T.text items.now)) }
{
    for item in items {
        add(out, separator)?;
        item.print(out)?;
    }
    Ok(())
}
