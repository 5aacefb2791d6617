ghost use Rattle.std.specs.Prelude.{◌≡◌, ◌↔◌, IsTrue, IfOk};

use crate::growing::{application, binding, metavariable, place, variable};
use mu_tree::{Name, NoMemory};
use sqlite_items::{Boxed, Items};
use std::alloc::Global;

/// A list of nameless trees, as a nameless tree holds them.
pub type Bares = Items<Bare>;

/// A nameless tree: an expression in the locally nameless representation, where bound variables are de Bruijn indices
/// and free variables keep their names.
///
/// An index is loose where its binder stands outside of the tree.
#[derive(Debug, Drop)]
pub enum Bare {
    /// A free variable, by its name.
    Var(Name),
    /// A bound variable: how many binders stand between it and its own binder, 0 for the innermost.
    Index(u64),
    /// A constant, applied to its arguments.
    App(Name, Items<Bare>),
    /// A metavariable, applied to its arguments.
    Meta(Name, Items<Bare>),
    /// A binder's constant, with its domain and its body. The body stands under one binder more, the domain does not.
    Bind(Name, Boxed<Bare>, Boxed<Bare>),
}

impl Bare {
    /// An equal nameless tree in memory of its own.
    ///
    /// # Errors
    ///
    /// `NoMemory` may come at any tree.
    #[cycle(bare_copy)]
    pub fn copy(&self, alloc: Global) -> Result<Bare, NoMemory>
        ensures { IfOk result (λ twin. twin ≡ self.now) }
    {
        match self {
            Bare::Var(name) => variable(alloc, name),
            Bare::Index(index) => Ok(place(*index)),
            Bare::App(name, arguments) => {
                let arguments = Bare::copy_all(alloc, arguments.as_slice())?;
                application(alloc, name, arguments)
            }
            Bare::Meta(name, arguments) => {
                let arguments = Bare::copy_all(alloc, arguments.as_slice())?;
                metavariable(alloc, name, arguments)
            }
            Bare::Bind(binder, domain, body) => {
                let domain = domain.get().copy(alloc)?;
                let body = body.get().copy(alloc)?;
                binding(alloc, binder, domain, body)
            }
        }
    }

    /// Equal nameless trees in memory of their own.
    ///
    /// # Errors
    ///
    /// `NoMemory` may come at any trees.
    #[cycle(bare_copy)]
    pub fn copy_all(alloc: Global, trees: &[Bare]) -> Result<Bares, NoMemory>
        ensures { IfOk result (λ copies. copies ≡ trees.now) }
    {
        let mut copies = Items::new(alloc);
        for tree in trees {
            copies.push(tree.copy(alloc)?)?;
        }
        Ok(copies)
    }
}

/// Whether two nameless trees are equal: the trees that they were entered from differ at most in the names of bound
/// variables.
#[cycle(same)]
pub fn same(left: &Bare, right: &Bare) -> bool
    ensures { IsTrue result ↔ (left.now ≡ right.now) }
{
    match (left, right) {
        (Bare::Var(x), Bare::Var(y)) => x == y,
        (Bare::Index(i), Bare::Index(j)) => i == j,
        (Bare::App(f, xs), Bare::App(g, ys)) => f == g && same_all(xs.as_slice(), ys.as_slice()),
        (Bare::Meta(m, xs), Bare::Meta(n, ys)) => m == n && same_all(xs.as_slice(), ys.as_slice()),
        (Bare::Bind(f, domain, body), Bare::Bind(g, other_domain, other_body)) => {
            f == g && same(domain.get(), other_domain.get()) && same(body.get(), other_body.get())
        }
        _ => false,
    }
}

/// Whether two lists of nameless trees are equal.
#[cycle(same)]
pub fn same_all(left: &[Bare], right: &[Bare]) -> bool
    ensures { IsTrue result ↔ (left.now ≡ right.now) }
{
    if left.len() != right.len() {
        return false;
    }
    for i in 0..left.len() {
        if !same(&left[i], &right[i]) {
            return false;
        }
    }
    true
}
