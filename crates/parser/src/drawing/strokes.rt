// One stroke of a drawing.
ghost use Rattle.std.specs.Prelude.{◌≡◌, MatchResult};
ghost use Rattle.base.specs.Reasons.{no_memory};
ghost use Rattle.language_theory.specs.Graphs.{blank_sheet, fresh, back as led_back, stand as stood, note as noted, maker as maker_of};
ghost use Rattle.language_theory.specs.declared.Action.TheVariants.{Skip};
ghost use Rattle.parser.specs.Models.{drawn_so};

use crate::drawing::Drawing;
use crate::side::Reading;
use base::{Place, Refusal};
use language_theory::{Action, Edge, Lookup};
use std::alloc::Global;

impl Drawing {
    // Point 0, and no edge.
    pub(crate) fn new(heap: Global) -> Drawing
        ensures { drawn_so result ≡ blank_sheet }
    {
        Drawing {
            points: 1,
            here: 0,
            edges: Vec::new(heap),
            lookups: Vec::new(heap),
        }
    }

    // An edge from here to a point.
    fn edge(&mut self, target: usize, action: Action, place: Place) -> Result<(), Refusal>
        ensures { MatchResult result (λ _. drawn_so self.new ≡ led_back action place target (drawn_so self.old)) (λ e. e ≡ no_memory) }
    {
        self.edges.push(Edge {
            source: self.here,
            target,
            action,
            place,
        })?;
        Ok(())
    }

    // An edge from here to a fresh point, which is here then.
    pub(crate) fn onward(&mut self, action: Action, place: Place) -> Result<(), Refusal>
        ensures { MatchResult result (λ _. drawn_so self.new ≡ fresh action place (drawn_so self.old)) (λ e. e ≡ no_memory) }
    {
        let target = self.points;
        self.edge(target, action, place)?;
        self.points = target + 1;
        self.here = target;
        Ok(())
    }

    // A skip from here to a point made before.
    pub(crate) fn back(&mut self, target: usize, place: Place) -> Result<(), Refusal>
        ensures { MatchResult result (λ _. drawn_so self.new ≡ led_back Skip place target (drawn_so self.old)) (λ e. e ≡ no_memory) }
    {
        self.edge(target, Action::Skip, place)
    }

    // Goes and stands at a point.
    pub(crate) fn stand(&mut self, point: usize)
        ensures { drawn_so self.new ≡ stood point (drawn_so self.old) }
    {
        self.here = point;
    }

    // A table read from here.
    pub(crate) fn note(&mut self, reading: Reading) -> Result<(), Refusal>
        ensures { MatchResult result (λ _. drawn_so self.new ≡ noted (record { point = self.old.here; index = reading.index; table = reading.table; place = reading.place }) (drawn_so self.old)) (λ e. e ≡ no_memory) }
    {
        self.lookups.push(Lookup {
            point: self.here,
            index: reading.index,
            table: reading.table,
            place: reading.place,
        })?;
        Ok(())
    }

    // The place of the statement that made a point.
    pub(crate) fn maker(&self, point: usize) -> Option<Place>
        ensures { result ≡ maker_of point self.now.edges.items }
    {
        self.edges
            .iter()
            .find(|edge| edge.target == point)
            .map(|edge| edge.place)
    }
}
