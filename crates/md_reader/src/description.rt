// A description, which is valid.
ghost use Rattle.std.specs.Prelude.{◌≡◌};

use crate::types::{Class, Rule};
use md_reader_pieces::Line;
use std::marker::Model;

/// What a description says. It is valid: no row of the format's table of faults is broken.
#[derive(Drop)]
pub struct Description {
    pub pool: u16,
    pub classes: Vec<Class>,
    pub spills: Vec<Line>,
    pub rules: Vec<Rule>,
}

impl Model for Description {
    ghost use Rattle.md_reader.specs.State.{Content};
    ghost use Rattle.md_reader.specs.Valid.{IsValid};

    ghost Value = { Content };

    ghost view = { λ d. record { pool = d.pool; classes = d.classes.items; spills = d.spills.items; rules = d.rules.items } };

    ghost invariant = { λ d. IsValid (record {
      pool = d.pool;
      classes = d.classes.items;
      spills = d.spills.items;
      rules =
          d.rules.items;
    }) };
}

ghost use Rattle.md_reader.specs.Valid.{IsValid};

impl Description {
    /// A valid description.
    pub fn new(pool: u16, classes: Vec<Class>, spills: Vec<Line>, rules: Vec<Rule>) -> Self
        requires { IsValid (record { pool = pool; classes = classes.items; spills = spills.items; rules = rules.items }) }
        ensures { result ≡ record { pool = pool; classes = classes.items; spills = spills.items; rules = rules.items } }
    {
        Description {
            pool,
            classes,
            spills,
            rules,
        }
    }

    /// Each description is valid. The call does nothing: its clause is the fact.
    pub fn is_valid(&self)
        ensures { IsValid self.now }
    {
        let _classes = &self.classes;
    }

    /// The registers that rules may take: bit N for register N, 0 to 11.
    pub fn pool(&self) -> u16
        ensures { result ≡ self.now.pool }
    {
        self.pool
    }

    /// The classes, by their numbers.
    pub fn classes(&self) -> &[Class]
        ensures { result.now ≡ self.now.classes }
    {
        &self.classes
    }

    /// The spill lines of values (b, w, l), of places (b, w, l) and of addresses, and the reload line.
    pub fn spills(&self) -> &[Line]
        ensures { result.now ≡ self.now.spills }
    {
        &self.spills
    }

    /// The rules, by their numbers.
    pub fn rules(&self) -> &[Rule]
        ensures { result.now ≡ self.now.rules }
    {
        &self.rules
    }
}
