// What is found so far, and what is in scope.
ghost use Rattle.std.specs.Prelude.{◌≡◌, OnOk};
ghost use Rattle.c_typed_scope.specs.declared.entry.Entry.{Entry};
ghost use Rattle.c_typed_scope.specs.Scopes.{is_taken};
ghost use Rattle.c_typed_scope.specs.Views.{scope};
ghost use Rattle.c_typed_addressed.specs.Marks.{marked, set, no_marks};
ghost use Rattle.c_typed_addressed.specs.Statements.{declared, at_first};
ghost use Rattle.c_typed_addressed.specs.Views.{marks, searched};

use c_typed_scope::{Block, Blocks, Entry};
use c_types::{CType, Variable};
use gg_base::Name;
use std::alloc::{AllocError, Global};

/// Whether `&` is applied to each parameter of a function, and to each of its automatic locals in the order of their
/// declarations, the `register` ones and arrays among them.
#[derive(Drop)]
pub struct Addressed {
    pub parameters: Vec<bool>,
    pub locals: Vec<bool>,
}

impl Addressed {
    /// No variable is declared yet.
    pub fn new(alloc: Global) -> Addressed
        ensures { marks result ≡ no_marks }
    {
        Addressed {
            parameters: Vec::new(alloc),
            locals: Vec::new(alloc),
        }
    }

    /// `&` is applied to what a name stands for.
    pub(crate) fn mark(&mut self, entry: Option<Entry>)
        ensures { marks self.new ≡ marked entry (marks self.old) }
    {
        match entry {
            Some(Entry::Variable(_, Variable::Automatic(number))) => set(&mut self.locals, number),
            Some(Entry::Variable(_, Variable::Parameter(number))) => {
                set(&mut self.parameters, number);
            }
            _ => {}
        }
    }
}

fn set(found: &mut Vec<bool>, number: u32)
    ensures { found.new.items ≡ set found.old.items number }
{
    let number = number as usize;
    if number < found.len() {
        found[number] = true;
    }
}

/// What is in scope while a function is searched, and what is found so far.
#[derive(Drop)]
pub(crate) struct Search {
    pub(crate) blocks: Blocks,
    pub(crate) found: Addressed,
}

impl Search {
    /// Nothing is in scope.
    pub(crate) fn new(alloc: Global) -> Search
        ensures { searched result ≡ at_first }
    {
        Search {
            blocks: Blocks {
                outer: Vec::new(alloc),
                here: Block::new(alloc),
            },
            found: Addressed::new(alloc),
        }
    }

    /// A name is in scope from here on. One that the block declares already stays what it is.
    #[tactic(auto, unfolding(c_typed_scope::specs::Scopes::with_name))]
    pub(crate) fn declare(
        &mut self,
        alloc: Global,
        name: &Name,
        variable: Variable,
    ) -> Result<(), AllocError>
        ensures { OnOk result (searched self.new ≡ declared name.now variable (searched self.old)) }
    {
        if self.blocks.is_taken(name.as_slice()) {
            return Ok(());
        }
        let name = Vec::from_slice(alloc, name.as_slice())?;
        self.blocks
            .here
            .add(name, Entry::Variable(CType::Void, variable))
    }
}
