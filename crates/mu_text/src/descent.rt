ghost use Rattle.std.specs.Prelude.{◌≡◌, ℕ, ◌<◌, ◌≤◌, List, length, OnOk};
ghost use Rattle.mu_tree.specs.Names.{IsName};
ghost use Rattle.mu_grammar.specs.Lexemes.{first_sort};
ghost use Rattle.mu_grammar.specs.Machine.{beginning_of};
ghost use Rattle.mu_text.specs.Reads.{Expects, ExpectsVar, GrowsTo, Offers, OperatorFirst, ReadsArguments, ReadsBinder, ReadsNamed, ReadsOperand, ReadsTree, Stands};
ghost use Rattle.mu_grammar.specs.Writings.{Writing};
ghost use Rattle.mu_grammar.specs.declared.way.Beginning.TheVariants as begins;

use crate::build::{added, applied, atom, bound, joined, leaf, negated, none};
use crate::operand::{Operand, Several};
use crate::parts::kept_name;
use crate::reader::Reader;
use mu_grammar::{
    Beginning, Ending, Mark, Op, Opening, PREFIX_LEVEL, PartFault, Sort, Word, constant,
};
use mu_tree::Name;
use std::alloc::Global;

/// The most levels that may be open at once in a tree of a line.
pub(crate) const MOST_NESTING: u32 = 400;

impl<'a> Reader<'a> {
    // the operator that comes first, if its level is no less than the least, and a tree of this level may stand before it
    fn operator(&self, least: u8, level: u8) -> Option<Op>
        ensures { Offers self.now least level result }
    {
        let op = Op::of(self.peek())?;
        if least <= op.level && op.left <= level {
            Some(op)
        } else {
            None
        }
    }

    fn expect(&mut self, mark: Mark) -> Result<(), PartFault>
        ensures shorter { length self.new ≤ length self.old }
        ensures expects { Expects mark self.old result self.new }
    {
        match self.peek() {
            Some(Sort::Mark(found)) if found == mark => {
                self.skip();
                Ok(())
            }
            _ => Err(PartFault::Mismatch),
        }
    }

    fn var(&mut self, alloc: Global) -> Result<Name, PartFault>
        ensures shorter { length self.new ≤ length self.old }
        ensures reads { ExpectsVar self.old result self.new }
    {
        match self.peek() {
            Some(Sort::Word(Word::Plain)) => {
                let name = kept_name(alloc, self.bytes())?;
                self.skip();
                Ok(name)
            }
            _ => Err(PartFault::Mismatch),
        }
    }

    /// Reads the tree that the tokens begin with, of the least level or a higher one, and leaves what follows it. In it at
    /// most `nesting` levels are open at once.
    ///
    /// # Errors
    ///
    /// `Mismatch` where no tree goes on: the first token that is left then, or the end of the tokens, is the first with which
    /// none does. `NoMemory`, at any tokens.
    #[cycle(trees)]
    pub(crate) fn tree(
        &mut self,
        alloc: Global,
        nesting: u32,
        least: u8,
    ) -> Result<Operand, PartFault>
        requires { least ≤ 7 }
        ensures shorter { length self.new ≤ length self.old }
        ensures reads { ReadsTree nesting least self.old result self.new }
    {
        let mut left = self.operand(alloc, nesting, least)?;
        while let Some(op) = self.operator(least, left.level) {
            left = self.operation(alloc, nesting, least, left, op)?;
        }
        Ok(left)
    }

    /// Reads the operator that comes first, and its right operand.
    #[cycle(trees)]
    fn operation(
        &mut self,
        alloc: Global,
        nesting: u32,
        least: u8,
        left: Operand,
        op: Op,
    ) -> Result<Operand, PartFault>
        requires operator { OperatorFirst self.old op }
        requires low { least ≤ op.level }
        requires left { op.left ≤ left.level }
        ensures shorter { length self.new ≤ length self.old }
        ensures taken { OnOk result (length self.new < length self.old) }
        ensures grows { (w : Writing) → Stands w left → GrowsTo nesting least w self.old result self.new }
    {
        if nesting < op.opens {
            return Err(PartFault::Mismatch);
        }
        self.skip();
        let right = self.tree(alloc, nesting - op.opens, op.right)?;
        let name = kept_name(alloc, constant(op.mark))?;
        let operand = joined(alloc, name, op.level, left, right)?;
        Ok(operand)
    }

    /// Reads a tree that is no operator's.
    #[cycle(trees)]
    fn operand(&mut self, alloc: Global, nesting: u32, least: u8) -> Result<Operand, PartFault>
        requires { least ≤ 7 }
        ensures shorter { length self.new ≤ length self.old }
        ensures reads { ReadsOperand nesting least self.old result self.new }
    {
        match Beginning::of(self.peek()) {
            Beginning::Head(head) => {
                let name = kept_name(alloc, self.bytes())?;
                self.skip();
                self.named(alloc, nesting, least, head, name)
            }
            Beginning::Paren => self.paren(alloc, nesting, least),
            Beginning::Negation => self.negation(alloc, nesting, least),
            Beginning::Nothing => Err(PartFault::Mismatch),
        }
    }

    /// Reads a tree in parentheses.
    #[cycle(trees)]
    fn paren(&mut self, alloc: Global, nesting: u32, least: u8) -> Result<Operand, PartFault>
        requires least { least ≤ 7 }
        requires first { beginning_of (first_sort self.old) ≡ begins.Paren }
        ensures shorter { length self.new ≤ length self.old }
        ensures reads { ReadsOperand nesting least self.old result self.new }
    {
        if nesting == 0 {
            return Err(PartFault::Mismatch);
        }
        self.skip();
        let inside = self.tree(alloc, nesting - 1, 0)?;
        self.expect(Mark::Close)?;
        Ok(atom(inside))
    }

    /// Reads `not` and its operand.
    #[cycle(trees)]
    fn negation(&mut self, alloc: Global, nesting: u32, least: u8) -> Result<Operand, PartFault>
        requires least { least ≤ 7 }
        requires first { beginning_of (first_sort self.old) ≡ begins.Negation }
        ensures shorter { length self.new ≤ length self.old }
        ensures reads { ReadsOperand nesting least self.old result self.new }
    {
        if least > PREFIX_LEVEL || nesting == 0 {
            return Err(PartFault::Mismatch);
        }
        self.skip();
        let tree = self.tree(alloc, nesting - 1, PREFIX_LEVEL)?;
        let name = kept_name(alloc, constant(Mark::Not))?;
        let operand = negated(alloc, name, tree)?;
        Ok(operand)
    }

    /// Reads what follows the head of a tree.
    #[cycle(trees)]
    fn named(
        &mut self,
        alloc: Global,
        nesting: u32,
        least: u8,
        head: Word,
        name: Name,
    ) -> Result<Operand, PartFault>
        requires { least ≤ 7 }
        ensures shorter { length self.new ≤ length self.old }
        ensures reads { (text : List ℕ) → (IsName text → name ≡ text) → ReadsNamed head text nesting least self.old result self.new }
    {
        match Opening::of(head, self.peek()) {
            Opening::Nothing => Ok(leaf(alloc, head, name)),
            Opening::Arguments => {
                if nesting == 0 {
                    return Err(PartFault::Mismatch);
                }
                self.skip();
                let args = self.arguments(alloc, nesting, least, head)?;
                let operand = applied(alloc, head, name, args)?;
                Ok(operand)
            }
            Opening::Binder => {
                if nesting == 0 {
                    return Err(PartFault::Mismatch);
                }
                self.skip();
                self.binder(alloc, nesting, least, head, name)
            }
        }
    }

    /// Reads what follows the brace of a binder.
    #[cycle(trees)]
    fn binder(
        &mut self,
        alloc: Global,
        nesting: u32,
        least: u8,
        head: Word,
        name: Name,
    ) -> Result<Operand, PartFault>
        requires { 0 < nesting }
        ensures shorter { length self.new ≤ length self.old }
        ensures reads { (text : List ℕ) → (IsName text → name ≡ text) → ReadsBinder head text nesting least self.old result self.new }
    {
        let var = self.var(alloc)?;
        self.expect(Mark::Colon)?;
        let dom = self.tree(alloc, nesting - 1, 0)?;
        self.expect(Mark::Dot)?;
        let body = self.tree(alloc, nesting - 1, 0)?;
        self.expect(Mark::CloseBrace)?;
        let operand = bound(alloc, name, var, dom, body)?;
        Ok(operand)
    }

    /// Reads arguments, and the bracket that closes them.
    #[cycle(trees)]
    fn arguments(
        &mut self,
        alloc: Global,
        nesting: u32,
        least: u8,
        head: Word,
    ) -> Result<Several, PartFault>
        requires { 0 < nesting }
        ensures shorter { length self.new ≤ length self.old }
        ensures reads { (text : List ℕ) → ReadsArguments head text nesting least self.old result self.new }
    {
        let mut args = none(alloc);
        loop {
            let tree = self.tree(alloc, nesting - 1, 0)?;
            args = added(args, tree)?;
            match Ending::of(head, self.peek()) {
                Ending::GoesOn => self.skip(),
                Ending::Closes => {
                    self.skip();
                    return Ok(args);
                }
                Ending::Nothing => return Err(PartFault::Mismatch),
            }
        }
    }
}
