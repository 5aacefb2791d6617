ghost use Rattle.std.specs.Prelude.{◌≡◌};
ghost use Rattle.mu_command.specs.Queries.{is_change};

use mu_tree::{Claim, Definition, Kind, Name, Shape, Tree, Trees, TypedVars, Why};

/// What one line of the input asks for: a form, named by its words, with what its parts say in the order in which they are written.
#[derive(Debug, Drop)]
pub enum Command {
    /// `theory U`: a new theory.
    Theory(Name),
    /// `parent U P`: a new parent of a theory.
    Parent(Name, Name),
    /// `unparent U P`: a parent of a theory, no more.
    Unparent(Name, Name),
    /// `const U c(k, ..) -> k` or `const U c{k} -> k`: a new constant.
    Const(Name, Name, Shape, Kind),
    /// `alter const c(k, ..) -> k` or `alter const c{k} -> k`: a constant, used in another way.
    AlterConst(Name, Shape, Kind),
    /// `define c = t` or `define c(x, ..) = t`: what a constant stands for.
    Define(Name, Definition),
    /// `undefine c`: a constant without its definition.
    Undefine(Name),
    /// `axiom U r : claim`: a new axiom.
    Axiom(Name, Name, Claim),
    /// `rule U r : claim`: a new rule that wants a proof.
    Rule(Name, Name, Claim),
    /// `alter rule r : claim`: an axiom or a rule, with another claim.
    AlterRule(Name, Claim),
    /// `proof r p`: a new proof of a rule, which needn't be there.
    Proof(Name, Name),
    /// `line r p l in b before x : t`: a new line of a proof, in a block, before an item or at the end.
    Line(Name, Name, Name, Name, Option<Name>, Tree),
    /// `box r p l in b before x : box`: a new box of a proof, in a block, before an item or at the end.
    Box(Name, Name, Name, Name, Option<Name>, TypedVars, Trees),
    /// `alter line r p l : t`: a line of a proof, with another tree.
    AlterLine(Name, Name, Name, Tree),
    /// `alter box r p l : box`: a box of a proof, with other variables and assumptions.
    AlterBox(Name, Name, Name, TypedVars, Trees),
    /// `move r p l to b before x`: an item of a proof, to another place.
    Move(Name, Name, Name, Name, Option<Name>),
    /// `cite r p l : why`: what a line holds by.
    Cite(Name, Name, Name, Why),
    /// `unjustify r p l`: a line that holds by nothing any more.
    Unjustify(Name, Name, Name),
    /// `drop unit U`: a theory, gone.
    DropUnit(Name),
    /// `drop const c`: a constant, gone.
    DropConst(Name),
    /// `drop rule r`: an axiom or a rule, gone.
    DropRule(Name),
    /// `drop proof r p`: a proof with all its items, gone.
    DropProof(Name, Name),
    /// `drop item r p l`: an item of a proof with all in it, gone.
    DropItem(Name, Name, Name),
    /// `status r`: what is known of a rule.
    Status(Name),
    /// `show unit U`: a theory, with its constants and its rules.
    ShowUnit(Name),
    /// `show rule r`: a rule as it was stated, with its proofs.
    ShowRule(Name),
    /// `show proof r p`: a proof, item by item, with its verdict.
    ShowProof(Name, Name),
}

impl Command {
    /// Whether the command changes the store, where it is accepted; the others ask for a page.
    pub fn is_change(&self) -> bool
        ensures { result ≡ is_change self.now }
    {
        !matches!(
            self,
            Command::Status(_)
                | Command::ShowUnit(_)
                | Command::ShowRule(_)
                | Command::ShowProof(_, _)
        )
    }
}
