ghost use Rattle.om_model.specs.Output.Ranges.{FitsHead};

use crate::ranges::{bytes_fit, options_fit, plan_fits};
use crate::transcript::Transcript;
use om_opts::Opts;
use om_words::WordPlan;
use std::marker::Model;

/// What an output begins with.
#[derive(Debug, Drop)]
pub struct Head {
    /// What the pools are asked to do beside allocating.
    pub opts: Opts,
    /// How many zones the arena has.
    pub zones: u32,
    /// Which words the pools draw.
    pub plan: WordPlan,
    /// The bytes of the option letters that have no meaning, in their order.
    pub warned: Vec<u8>,
}

impl Model for Head {
    ghost use Rattle.om_model.specs.Output.Head;

    ghost Value = { Head.Head };

    ghost view = { λ h. record {
      options = h.opts;
      zones = h.zones;
      plan = h.plan;
      warned = h.warned.items;
    } };
}

impl Head {
    /// A law of the type: every number in it is one that its type holds.
    pub fn fits(&self)
        ensures { FitsHead self.now }
    {
        options_fit(self.opts, self.zones);
        plan_fits(&self.plan);
        bytes_fit(&self.warned);
    }
}

/// A script's name, and the outcomes of its commands.
#[derive(Drop)]
pub struct Told {
    pub name: Vec<u8>,
    pub outcomes: Transcript,
}

impl Model for Told {
    ghost use Rattle.om_model.specs.Output.Content;

    ghost Value = { Content.Told };

    ghost view = { λ t. record { name = t.name.items; outcomes = t.outcomes } };
}
