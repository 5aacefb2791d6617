ghost use Rattle.std.specs.Prelude.{◌≡◌, IfOk};

use crate::claim::{Claim, Definition, Hyp, Kind, Shape, TypedVar};
use crate::memory::NoMemory;
use crate::names::Name;
use crate::sequence::Sequence;
use crate::trees::Tree;
use crate::why::{Given, Ref, Why};
use std::alloc::Global;

/// A value that can be copied in full.
pub trait Duplicate {
    /// An equal value in memory of its own.
    ///
    /// # Errors
    ///
    /// `NoMemory` may come at any value.
    fn duplicate(&self, alloc: Global) -> Result<Self, NoMemory>
        ensures { IfOk result (λ twin. twin ≡ self.now) };
}

impl Duplicate for Name {
    fn duplicate(&self, alloc: Global) -> Result<Name, NoMemory> {
        self.copy(alloc)
    }
}

impl Duplicate for Tree {
    fn duplicate(&self, alloc: Global) -> Result<Tree, NoMemory> {
        self.copy(alloc)
    }
}

impl Duplicate for Kind {
    fn duplicate(&self, _alloc: Global) -> Result<Kind, NoMemory> {
        Ok(*self)
    }
}

impl<T: Duplicate + Drop> Duplicate for Sequence<T> {
    fn duplicate(&self, alloc: Global) -> Result<Sequence<T>, NoMemory> {
        let mut twins = Sequence::with_capacity(alloc, self.len())?;
        for item in self.items() {
            twins.push(item.duplicate(alloc)?)?;
        }
        Ok(twins)
    }
}

impl<T: Duplicate> Duplicate for Option<T> {
    fn duplicate(&self, alloc: Global) -> Result<Option<T>, NoMemory> {
        match self {
            Some(value) => Ok(Some(value.duplicate(alloc)?)),
            None => Ok(None),
        }
    }
}

impl Duplicate for Shape {
    fn duplicate(&self, alloc: Global) -> Result<Shape, NoMemory> {
        match self {
            Shape::Plain(kinds) => Ok(Shape::Plain(kinds.duplicate(alloc)?)),
            Shape::Binder(kind) => Ok(Shape::Binder(*kind)),
        }
    }
}

impl Duplicate for TypedVar {
    fn duplicate(&self, alloc: Global) -> Result<TypedVar, NoMemory> {
        Ok(TypedVar {
            name: self.name.copy(alloc)?,
            ty: self.ty.copy(alloc)?,
        })
    }
}

impl Duplicate for Hyp {
    fn duplicate(&self, alloc: Global) -> Result<Hyp, NoMemory> {
        match self {
            Hyp::Plain(tree) => Ok(Hyp::Plain(tree.copy(alloc)?)),
            Hyp::Sequent {
                vars,
                premises,
                upshot,
            } => Ok(Hyp::Sequent {
                vars: vars.duplicate(alloc)?,
                premises: Tree::copy_all(alloc, premises.as_slice())?,
                upshot: upshot.copy(alloc)?,
            }),
        }
    }
}

impl Duplicate for Claim {
    fn duplicate(&self, alloc: Global) -> Result<Claim, NoMemory> {
        Ok(Claim {
            hyps: self.hyps.duplicate(alloc)?,
            conclusion: self.conclusion.copy(alloc)?,
        })
    }
}

impl Duplicate for Definition {
    fn duplicate(&self, alloc: Global) -> Result<Definition, NoMemory> {
        Ok(Definition {
            params: self.params.duplicate(alloc)?,
            body: self.body.copy(alloc)?,
        })
    }
}

impl Duplicate for Ref {
    fn duplicate(&self, alloc: Global) -> Result<Ref, NoMemory> {
        match self {
            Ref::Item(label) => Ok(Ref::Item(label.copy(alloc)?)),
            Ref::Assumption(label, number) => Ok(Ref::Assumption(label.copy(alloc)?, *number)),
            Ref::Hypothesis(number) => Ok(Ref::Hypothesis(*number)),
        }
    }
}

impl Duplicate for Given {
    fn duplicate(&self, alloc: Global) -> Result<Given, NoMemory> {
        Ok(Given {
            meta: self.meta.copy(alloc)?,
            params: self.params.duplicate(alloc)?,
            body: self.body.copy(alloc)?,
        })
    }
}

impl Duplicate for Why {
    fn duplicate(&self, alloc: Global) -> Result<Why, NoMemory> {
        match self {
            Why::Rule {
                rule,
                via,
                refs,
                inst,
            } => Ok(Why::Rule {
                rule: rule.copy(alloc)?,
                via: via.duplicate(alloc)?,
                refs: refs.duplicate(alloc)?,
                inst: inst.duplicate(alloc)?,
            }),
            Why::Hypothesis { n, terms, refs } => Ok(Why::Hypothesis {
                n: *n,
                terms: Tree::copy_all(alloc, terms.as_slice())?,
                refs: refs.duplicate(alloc)?,
            }),
            Why::Definition { constant, on } => Ok(Why::Definition {
                constant: constant.copy(alloc)?,
                on: on.duplicate(alloc)?,
            }),
            Why::Same { on } => Ok(Why::Same {
                on: on.duplicate(alloc)?,
            }),
        }
    }
}
