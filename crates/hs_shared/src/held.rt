//! The core under the turn.

ghost use Rattle.hs_history.specs.Story.{Base, coded_base, CoreStep, coded_core_step};

use hs_core::Core;
use hs_turn::Storied;
use std::marker::Model;

/// What stays the same of a core: its problem, its budget, and whether only the start entry is
/// sought. No value of it is made: it is what contracts say of a seat.
pub struct CoreBase {
    ghost base: { Base } by { coded_base },
}

impl Model for CoreBase {
    ghost use base.Fml.{ftrue};
    ghost use Rattle.hs_history.specs.Story.{Base, coded_base};

    ghost Value = { Base };

    ghost coded = { coded_base };

    ghost view = { λ a. a.base };

    ghost also_owns = { λ _. ftrue };
}

/// A step of a worker, with the entry that it adds. No value of it is made: it is what contracts say
/// of the table's story.
pub struct Told {
    ghost step: { CoreStep } by { coded_core_step },
}

impl Model for Told {
    ghost use base.Fml.{ftrue};
    ghost use Rattle.hs_history.specs.Story.{CoreStep, coded_core_step};

    ghost Value = { CoreStep };

    ghost coded = { coded_core_step };

    ghost view = { λ a. a.step };

    ghost also_owns = { λ _. ftrue };
}

/// A core under a turn. Its story is what has happened to the core, and the number of a step is its
/// worker.
#[derive(Drop)]
pub struct Held<'p> {
    pub(crate) core: Core<'p>,
}

impl<'p> Storied for Held<'p> {
    type Base = CoreBase;

    type Event = Told;

    ghost base = { λ held. held.core.base };

    ghost story = { λ held. held.core.story };

    ghost number = { λ step. step.worker };
}
