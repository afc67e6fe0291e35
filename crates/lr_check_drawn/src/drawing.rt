// Nodes for the settlings that were found, each with the number of its settling.
ghost use Rattle.std.specs.Prelude.{◌≡◌, ◌++◌, ◌+◌, [], ◌∷◌, Some, OnOk, IfOk, length, slice_get, slice_index_or};
ghost use Rattle.lr_check_found.specs.lr_check_sets.specs.Table.{automaton_of};
ghost use Rattle.lr_check_found.specs.Adding.{list_number};
ghost use Rattle.lr_check_found.specs.Sound.{IsFound};
ghost use Rattle.lr_check_nodes.specs.Growing.{AreWhole};
ghost use Rattle.lr_check_drawn.specs.Drawing.{kids_in, choices_behind, one_kid, two_kids, kids_again, held, IsNext};
ghost use Rattle.lr_check_drawn.specs.Drawing.{AreDrawn, IsAsked};
ghost use Rattle.lr_check_found.specs.declared.places.Place.{Place};
ghost use Rattle.lr_check_found.specs.Found.{IsPlaceAt};
ghost use Rattle.lr_check_samples.specs.Fixed.{IsMadeBy};
ghost use Rattle.lr_check.specs.Questions.{answers_of};

use crate::asked::Asked;
use crate::rising::token_of;
use gg_base::{NoMemory, number_of};
use lr_check::SampleNode;
use lr_check_found::{Found, How};
use lr_check_nodes::Growing;
use lr_tables::{Choice, Tables};
use std::alloc::Global;
use std::marker::Model;
use tree_core::Tok;

// The depths at which a settling's tree asks below its list.
#[derive(Drop)]
struct Depths {
    held: Vec<usize>,
}

impl Model for Depths {
    ghost use Rattle.std.specs.Prelude.{ℕ, List};

    ghost Value = { List ℕ };

    ghost view = { λ d. d.held.items };
}

impl Depths {
    fn as_slice(&self) -> &[usize]
        ensures { result.now ≡ self.now }
    {
        &self.held
    }
}

// The numbers of a settling's kids' nodes, and what its own node is asked.
#[derive(Drop)]
struct Kids {
    numbers: Vec<u32>,
    asked: Asked,
}

impl Model for Kids {
    ghost use Rattle.lr_check_drawn.specs.Drawing.{KidsView};

    ghost Value = { KidsView };

    ghost view = { λ k. record { numbers = k.numbers.items; asked = k.asked } };
}

/// The nodes of settlings, by the settlings' numbers.
#[derive(Drop)]
pub(crate) struct Drawing {
    nodes: Vec<SampleNode>,
    depths: Vec<Depths>,
}

impl Model for Drawing {
    ghost use Rattle.lr_check_drawn.specs.Drawing.{DrawingView};

    ghost Value = { DrawingView };

    ghost view = { λ d. record { nodes = d.nodes.items; depths = d.depths.items } };
}

impl Drawing {
    fn depths(&self, number: usize) -> &[usize]
        ensures { result.now ≡ slice_index_or self.now.depths number [] }
    {
        match self.depths.get(number) {
            Some(depths) => depths.as_slice(),
            None => &[],
        }
    }

    fn kids(&self, number: usize) -> &[u32]
        ensures { result.now ≡ kids_in (slice_get self.now.nodes number) }
    {
        match self.nodes.get(number) {
            Some(node) => node.kids(),
            None => &[],
        }
    }

    fn answers(&self, number: usize) -> &[bool]
        ensures { result.now ≡ answers_of (slice_get self.now.nodes number) }
    {
        match self.nodes.get(number) {
            Some(node) => node.answers(),
            None => &[],
        }
    }

    fn one(&self, alloc: Global, first: usize) -> Result<Kids, NoMemory>
        ensures { IfOk result (λ k. k ≡ one_kid self.now first) }
    {
        let mut numbers = Vec::new(alloc);
        numbers.push(number_of(first)?)?;
        let mut asked = Asked::new(alloc);
        asked.push_kid(1, self.depths(first))?;
        Ok(Kids { numbers, asked })
    }

    // The second kid stands behind a list of so many symbols.
    fn two(&self, alloc: Global, first: usize, second: usize, size: usize) -> Result<Kids, NoMemory>
        ensures { IfOk result (λ k. k ≡ two_kids self.now first second size) }
    {
        let mut numbers = Vec::new(alloc);
        numbers.push(number_of(first)?)?;
        numbers.push(number_of(second)?)?;
        let mut asked = Asked::new(alloc);
        asked.push_kid(1, self.depths(first))?;
        asked.push_kid(size, self.depths(second))?;
        Ok(Kids { numbers, asked })
    }

    // The same kids, and what is asked until the settling's list is reduced to the class.
    fn again(
        &self,
        alloc: Global,
        tables: &Tables,
        found: &Found,
        settling: usize,
        class: u16,
    ) -> Result<Kids, NoMemory>
        ensures { IfOk result (λ k. k ≡ kids_again tables.now found.now self.now settling class) }
    {
        let mut numbers = Vec::new(alloc);
        numbers.extend_from_slice(self.kids(settling))?;
        let mut asked = Asked::copied(alloc, self.answers(settling), self.depths(settling))?;
        let rules = tables.description().rules();
        let size = found.lists().get(found.list_number(settling)).len();
        let choices = choices_behind(tables, found, settling);
        asked.push_taken(rules, choices, size, class)?;
        Ok(Kids { numbers, asked })
    }

    // What is asked of the next settling's node.
    fn ask(
        &self,
        alloc: Global,
        tables: &Tables,
        found: &Found,
        number: usize,
        how: How,
    ) -> Result<Kids, NoMemory>
        requires found { IsFound (automaton_of tables.now) found.now }
        requires drawn { AreDrawn (automaton_of tables.now) found.now self.now }
        requires next { number ≡ length self.now.depths }
        requires made { IsMadeBy found.now number how }
        ensures { IfOk result (λ k. IsAsked (automaton_of tables.now) found.now self.now number k) }
    {
        match how {
            How::Leaf => Ok(Kids {
                numbers: Vec::new(alloc),
                asked: Asked::new(alloc),
            }),
            How::One(first) => self.one(alloc, first),
            How::Two(first, second) => self.two(alloc, first, second, size_behind(found, first)),
            How::Reduced(settling, class) => self.again(alloc, tables, found, settling, class),
        }
    }

    /// The nodes, by the numbers of the settlings, for more to be added.
    pub fn into_growing(self) -> Growing
        requires { AreWhole self.nodes }
        ensures { result ≡ self.nodes }
    {
        let Drawing { nodes, .. } = self;
        Growing::from_nodes(nodes)
    }

    // The node of the next settling.
    fn hold(&mut self, token: Tok, kids: Kids) -> Result<(), NoMemory>
        ensures { OnOk result (self.new ≡ held self.old token kids) }
    {
        let Kids { numbers, asked } = kids;
        let Asked { own, depths } = asked;
        self.nodes.push(SampleNode::new(token, numbers, own))?;
        self.depths.push(Depths { held: depths })?;
        Ok(())
    }

    // Draws the next settling.
    fn draw(
        &mut self,
        alloc: Global,
        tables: &Tables,
        found: &Found,
        number: usize,
        how: How,
        token: Tok,
    ) -> Result<(), NoMemory>
        requires found { IsFound (automaton_of tables.now) found.now }
        requires drawn { AreDrawn (automaton_of tables.now) found.now self.old }
        requires next { number ≡ length self.old.depths }
        requires there { IsNext found.now number how token }
        ensures drawn { OnOk result (AreDrawn (automaton_of tables.now) found.now self.new) }
        ensures more { OnOk result (length self.new.depths ≡ number + 1) }
    {
        let kids = self.ask(alloc, tables, found, number, how)?;
        self.hold(token, kids)
    }

    /// Draws all settlings: each has the node with its number.
    pub fn of_all(alloc: Global, tables: &Tables, found: &Found) -> Result<Drawing, NoMemory>
        requires found { IsFound (automaton_of tables.now) found.now }
        ensures drawn { IfOk result (λ d. AreDrawn (automaton_of tables.now) found.now d) }
        ensures many { IfOk result (λ d. length d.depths ≡ length found.now.settlings) }
    {
        let mut drawing = Drawing {
            nodes: Vec::new(alloc),
            depths: Vec::new(alloc),
        };
        for (number, entry) in found.settlings().iter().enumerate() {
            let token = token_of(found, entry.place);
            drawing.draw(alloc, tables, found, number, entry.how, token)?;
        }
        Ok(drawing)
    }
}

// How many symbols the settling's list has, with the token below it.
fn size_behind(found: &Found, settling: usize) -> usize
    ensures { result ≡ length (slice_index_or found.now.lists.all (list_number found.now settling) []) + 1 }
{
    found.lists().get(found.list_number(settling)).len() + 1
}

// The choices behind the settling's list, with its place's token behind it to come.
fn choices_behind<'a>(tables: &'a Tables, found: &Found, settling: usize) -> &'a [Choice]
    ensures { result.now ≡ choices_behind tables.now found.now (slice_get found.now.settlings settling) }
{
    match found.settlings().get(settling) {
        Some(entry) => match (entry.behind, found.places().get(entry.place)) {
            (Some(state), Some(place)) => tables.action(state, place.behind),
            _ => &[],
        },
        None => &[],
    }
}
