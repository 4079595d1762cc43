//! A specification as a machine that is explored.
use crate::cursor::{Cursor, Part, begin_state, go_on, hold, look_at};
use crate::finder::Finder;
use crate::form::Form;
use crate::given::{Schematic, Surrounding};
use crate::lines::{
    append_between, append_last_lines, append_state, append_step, append_stuck_line,
};
use crate::node::{Label, Node};
use crate::objects::{
    append_last_objects, append_state_object, append_step_object, append_stray_object,
    append_stuck_object, append_verdict_objects,
};
use crate::results::append_verdict_lines;
use crate::statements::{
    append_edge_statement, append_graph_head, append_graph_last, append_graph_verdict,
    append_node_statement, append_stray_statement, append_stuck_statement,
};
use crate::system::System;
use std::alloc::AllocError;
use std::marker::PhantomData;
use zf_reach::{Beginning, Ending, Finding, Found, Machine, Sight};

/// A system in an environment, explored by such searches.
#[derive(Drop)]
pub struct Explorer<'m, 's, 'p, E, F, S> {
    pub system: &'m System<'s, 'p, F>,
    pub surrounding: PhantomData<E>,
    pub searches: PhantomData<S>,
}

impl<'m, 's, 'p, E: Surrounding + Drop, F: Schematic + Drop, S: Finder + Drop> Machine
    for Explorer<'m, 's, 'p, E, F, S> {
    ghost use Rattle.std.proofs.Common.{refl};
    ghost use Rattle.std.specs.Prelude.{length};
    ghost use Rattle.zf_graph.proofs.Turns.{of_graph, sure};
    ghost use Rattle.zf_steps.specs.contracts.node.NodePartialEq.TheImpl as nodes;
    ghost use Rattle.zf_steps.specs.Explored.{sought_in};
    ghost use Rattle.zf_steps.specs.Finders.{IsForIn, stage_in};
    ghost use Rattle.zf_steps.specs.Machines.{Fits, number_of, rows_ahead_at, search_of, Stands};
    ghost use Rattle.zf_steps.specs.Searching.{HasPassed};
    ghost use Rattle.zf_steps.specs.Steps.{exploration, parts_of, searched};
    ghost use Rattle.zf_steps.specs.StepGraphs.{steps};
    ghost use Rattle.zf_steps.specs.SystemLaws.{all_parts, decisive, orderly};
    ghost use Rattle.zf_steps.specs.SystemViews.{system_of};
    ghost use Rattle.zf_steps.specs.Words.{verdict, words};

    type Node = Node;

    type Label = Label;

    type Cursor = Cursor<S>;

    ghost explored = { λ m. exploration (system_of E.environment F.schema m.system.now) nodes.ghosts.eq };

    ghost graph = { λ m. steps (system_of E.environment F.schema m.system.now) nodes.ghosts.eq };

    ghost words = { λ m. words (system_of E.environment F.schema m.system.now) };

    ghost sought = { λ m. sought_in (system_of E.environment F.schema m.system.now) };

    ghost verdict = { λ m. verdict (system_of E.environment F.schema m.system.now) };

    ghost parts = { λ m a. length (parts_of (system_of E.environment F.schema m.system.now) a) };

    ghost Fits = { λ m c. Fits (IsForIn S.place) (system_of E.environment F.schema m.system.now) c.state c.init c.operations.items c.part };

    ghost HasPassed = { λ m. HasPassed (system_of E.environment F.schema m.system.now) nodes.ghosts.eq };

    ghost Stands = { λ m c. Stands (system_of E.environment F.schema m.system.now) nodes.ghosts.eq (stage_in S.place) c.part (search_of c.part c.init c.operations.items) };

    ghost part = { λ c. number_of c.part };

    ghost ahead = { λ c. rows_ahead_at (stage_in S.place) (search_of c.part c.init c.operations.items) };

    ghost stop = { λ c. c.stop.items };

    ghost all_passed = { λ m. all_parts (system_of E.environment F.schema m.system.now) nodes.ghosts.eq };

    ghost of_graph = { λ m. of_graph (searched (system_of E.environment F.schema m.system.now) nodes.ghosts.eq) (orderly (system_of E.environment F.schema m.system.now)) };

    ghost sure = { λ m. sure (searched (system_of E.environment F.schema m.system.now) nodes.ghosts.eq) (orderly (system_of E.environment F.schema m.system.now)) };

    ghost decisive = { λ m. decisive (system_of E.environment F.schema m.system.now) nodes.ghosts.eq };

    ghost same_nodes = { λ m. refl };

    fn root(&self) -> Result<Node, AllocError> {
        Ok(Node::Root)
    }

    fn count(&self, of: &Node) -> usize {
        match of {
            Node::Root => 1,
            Node::State(_) => self.system.operations.len(),
        }
    }

    fn begin(&self, cursor: &mut Cursor<S>, of: &Node) -> Result<Beginning, AllocError> {
        match of {
            Node::Root => Ok(Beginning::Regular),
            Node::State(values) => begin_state::<E, F, S>(
                self.system,
                values.as_slice(),
                &mut cursor.state,
                &mut cursor.stop,
            ),
        }
    }

    fn start(&self, cursor: &mut Cursor<S>, of: &Node, which: usize) -> Result<(), AllocError> {
        match of {
            Node::Root => {
                cursor.part = Part::Initial;
                hold(self.system.alloc, &self.system.init, &mut cursor.init, &[])
            }
            Node::State(values) => {
                cursor.part = Part::Operation(which);
                hold(
                    self.system.alloc,
                    &self.system.operations[which],
                    &mut cursor.operations[which],
                    values.as_slice(),
                )
            }
        }
    }

    fn advance(&self, cursor: &mut Cursor<S>) -> Result<Found<Node, Label>, AllocError> {
        match cursor.part {
            Part::Initial => go_on::<E, F, S>(
                self.system,
                &self.system.init,
                0,
                &mut cursor.init,
                &mut cursor.stop,
            ),
            Part::Operation(number) => go_on::<E, F, S>(
                self.system,
                &self.system.operations[number],
                number,
                &mut cursor.operations[number],
                &mut cursor.stop,
            ),
        }
    }

    fn look(&self, cursor: &mut Cursor<S>, of: &Node) -> Result<Sight, AllocError> {
        match of {
            Node::Root => Ok(Sight::Other),
            Node::State(values) => look_at::<E, F, S>(
                self.system,
                values.as_slice(),
                &mut cursor.state,
                &mut cursor.stop,
            ),
        }
    }

    fn append_head(&self, line: &mut Vec<u8>) -> Result<(), AllocError> {
        match self.system.form {
            Form::Lines => Ok(()),
            Form::Graph => append_graph_head(line),
            Form::Objects => Ok(()),
        }
    }

    fn append_node(
        &self,
        line: &mut Vec<u8>,
        from: usize,
        number: usize,
        of: &Node,
    ) -> Result<(), AllocError> {
        match of {
            Node::Root => Ok(()),
            Node::State(values) => match self.system.form {
                Form::Lines => append_state::<E, F>(line, self.system, number, values.as_slice()),
                Form::Graph => append_node_statement::<E, F>(
                    line,
                    self.system,
                    from,
                    number,
                    values.as_slice(),
                ),
                Form::Objects => {
                    append_state_object::<E, F>(line, self.system, number, values.as_slice())
                }
            },
        }
    }

    fn append_edge(
        &self,
        line: &mut Vec<u8>,
        from: usize,
        label: &Label,
        number: usize,
    ) -> Result<(), AllocError> {
        match self.system.form {
            Form::Lines => append_step::<E, F>(line, self.system, from, label, number),
            Form::Graph => append_edge_statement::<E, F>(line, self.system, from, label, number),
            Form::Objects => append_step_object::<E, F>(line, self.system, from, label, number),
        }
    }

    fn append_stray(&self, line: &mut Vec<u8>, number: usize) -> Result<(), AllocError> {
        match self.system.form {
            Form::Lines => append_between(line, b"stray ", number, b"\n"),
            Form::Graph => append_stray_statement(line, number),
            Form::Objects => append_stray_object(line, number),
        }
    }

    fn append_stuck(&self, line: &mut Vec<u8>, number: usize) -> Result<(), AllocError> {
        match self.system.form {
            Form::Lines => append_stuck_line(line, number),
            Form::Graph => append_stuck_statement(line, number),
            Form::Objects => append_stuck_object(line, number),
        }
    }

    fn append_last(
        &self,
        line: &mut Vec<u8>,
        ending: Ending,
        cursor: &Cursor<S>,
        nodes: usize,
        edges: u64,
    ) -> Result<(), AllocError> {
        match self.system.form {
            Form::Lines => append_last_lines(line, ending, &cursor.stop, nodes, edges),
            Form::Graph => append_graph_last(line, ending, &cursor.stop, nodes, edges),
            Form::Objects => append_last_objects(line, ending, &cursor.stop, nodes, edges),
        }
    }

    fn append_verdict(
        &self,
        line: &mut Vec<u8>,
        finding: Finding,
        cursor: &Cursor<S>,
        nodes: usize,
        edges: u64,
    ) -> Result<(), AllocError> {
        match self.system.form {
            Form::Lines => append_verdict_lines(line, finding, &cursor.stop, nodes, edges),
            Form::Graph => append_graph_verdict(line, finding, &cursor.stop, nodes, edges),
            Form::Objects => append_verdict_objects(line, finding, &cursor.stop, nodes, edges),
        }
    }
}
