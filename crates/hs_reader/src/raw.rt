//! What a file says, before its names are numbered.

ghost use Rattle.std.specs.Prelude.{◌≡◌};

use std::marker::Model;

/// The bytes of a name, where they stand in the file. Contracts see the list of these bytes.
#[derive(Debug, Drop)]
pub struct RawText<'a> {
    bytes: &'a [u8],
}

impl<'a> Model for RawText<'a> {
    ghost use Rattle.std.specs.Prelude.{List, ℕ};

    ghost Value = { List ℕ };

    ghost view = { λ text. text.bytes.now };
}

impl<'a> RawText<'a> {
    /// The text of these bytes. Takes no memory.
    pub(crate) fn of(bytes: &'a [u8]) -> RawText<'a>
        ensures { result ≡ bytes.now }
    {
        RawText { bytes }
    }

    /// The bytes of the name. Takes no memory.
    pub fn bytes(&self) -> &'a [u8]
        ensures { result.now ≡ self.now }
    {
        self.bytes
    }
}

/// A name as it stands in a file, and the line of its first byte, counted from 1.
#[derive(Debug, Drop)]
pub struct RawName<'a> {
    pub text: RawText<'a>,
    pub line: u32,
}

/// A name of a term, and how many arguments it is applied to.
#[derive(Debug, Drop)]
pub struct RawNode<'a> {
    pub text: RawText<'a>,
    /// The line of the name's first byte, counted from 1.
    pub line: u32,
    pub args: u32,
}

impl<'a> RawNode<'a> {
    /// The name. Takes no memory.
    pub fn name(&self) -> RawName<'a>
        ensures { result ≡ record { text = self.now.text; line = self.now.line } }
    {
        RawName {
            text: RawText::of(self.text.bytes()),
            line: self.line,
        }
    }
}

/// A name applied to the arguments, none or more.
///
/// Contracts see a finite tree with a name at each node. It lies in memory as the list of its nodes.
#[derive(Debug, Drop)]
pub struct RawTerm<'a> {
    nodes: Vec<RawNode<'a>>,
}

impl<'a> Model for RawTerm<'a> {
    ghost use Rattle.std.specs.Prelude.{◌≡◌};
    ghost use Rattle.hs_reader.specs.declared.raw.RawName.{RawName};
    ghost use Rattle.hs_scheme.specs.Tree.{Tree, tree_code};
    ghost use Rattle.hs_reader.specs.Raw.{coded_name};
    ghost use Rattle.hs_reader.specs.Preorder.{preorder, first_term};

    ghost Value = { Tree RawName };

    ghost coded = { tree_code coded_name };

    ghost view = { λ a. first_term a.nodes.items };

    ghost invariant = { λ a. a.nodes.items ≡ preorder (first_term a.nodes.items) };
}

impl<'a> RawTerm<'a> {
    ghost use Rattle.std.specs.Prelude.{◌≡◌};
    ghost use Rattle.hs_reader.specs.Preorder.{preorder, first_term};

    /// The term with these nodes. Takes no memory.
    pub(crate) fn of(nodes: Vec<RawNode<'a>>) -> RawTerm<'a>
        requires { nodes.items ≡ preorder (first_term nodes.items) }
        ensures { result ≡ first_term nodes.entry.items }
    {
        let mut nodes = nodes;
        nodes.shrink_to_fit();
        RawTerm { nodes }
    }

    /// The nodes of the term, each name before its arguments. Takes no memory.
    pub fn nodes(&self) -> &[RawNode<'a>]
        ensures { result.now ≡ preorder self.now }
    {
        self.nodes.as_slice()
    }
}

/// A rule: its name, its parameters and its right side.
#[derive(Debug, Drop)]
pub struct RawRule<'a> {
    pub name: RawName<'a>,
    pub params: Vec<RawName<'a>>,
    pub body: RawTerm<'a>,
}

impl<'a> Model for RawRule<'a> {
    ghost use Rattle.hs_reader.specs.Raw.{Rule, coded_rule};

    ghost Value = { Rule };

    ghost coded = { coded_rule };

    ghost view = { λ a. record { name = a.name; params = a.params.items; body = a.body } };
}

/// A transition: its state, its terminal and the states of the children, in order.
#[derive(Debug, Drop)]
pub struct RawTransition<'a> {
    pub from: RawName<'a>,
    pub terminal: RawName<'a>,
    pub to: Vec<RawName<'a>>,
}

impl<'a> Model for RawTransition<'a> {
    ghost use Rattle.hs_reader.specs.Raw.{Transition, coded_transition};

    ghost Value = { Transition };

    ghost coded = { coded_transition };

    ghost view = { λ a. record { from = a.from; terminal = a.terminal; to = a.to.items } };
}

/// The rules and the transitions of a file, each list in the order of the file.
///
/// There is at least one of each. Each name is one of the format: name bytes, one or more. A rule's
/// name is upper, parameters and terminals are lower, and the limits of [`Which`](crate::Which) hold,
/// depth apart. The names are 16,777,216 at most, each occurrence counted.
#[derive(Debug, Drop)]
pub struct RawFile<'a> {
    pub rules: Vec<RawRule<'a>>,
    pub transitions: Vec<RawTransition<'a>>,
}

impl<'a> Model for RawFile<'a> {
    ghost use Rattle.hs_reader.specs.Raw.{File, coded_file};
    ghost use Rattle.hs_reader.specs.Limits.{IsRaw};

    ghost Value = { File };

    ghost coded = { coded_file };

    ghost view = { λ a. record { rules = a.rules.items; transitions = a.transitions.items } };

    ghost invariant = { λ a. IsRaw (record { rules = a.rules.items; transitions = a.transitions.items }) };
}
