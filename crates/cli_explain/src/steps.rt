//! What a program's lines and loops cost: how many steps each takes in a run with the most steps.

use crate::explanation::Explanation;
use client_code::{Client, Instruction, Role};
use std::alloc::{AllocError, Global};
use std::str;

/// The parts of an opener or a loop.
#[derive(Clone, Copy)]
struct Parts {
    /// The steps of the success part; of a loop 0.
    first: u64,
    /// The steps of the else part, or of a turn of a loop.
    last: u64,
    /// The turns of a loop, else 1.
    turns: u64,
}

impl Parts {
    const NONE: Parts = Parts {
        first: 0,
        last: 0,
        turns: 1,
    };

    /// The steps of a run through the costlier part.
    fn steps(self) -> u64 {
        self.first.max(self.last).saturating_mul(self.turns)
    }

    /// Whether the costlier part is the one at the end.
    fn costs_last(self) -> bool {
        self.last > self.first
    }
}

/// An open part: its opener, and a number of steps or of runs.
#[derive(Clone, Copy)]
struct Open {
    opener: usize,
    count: u64,
}

/// A walk over a client's code: the part that it is in, and those around it.
#[derive(Drop)]
struct Walk {
    outer: Vec<Open>,
    part: Open,
}

impl Walk {
    fn new(alloc: Global, count: u64) -> Walk {
        Walk {
            outer: Vec::new(alloc),
            part: Open { opener: 0, count },
        }
    }

    fn open(&mut self, opener: usize, count: u64) -> Result<(), AllocError> {
        self.outer.push(self.part)?;
        self.part = Open { opener, count };
        Ok(())
    }

    /// Ends the part that the walk is in, and returns it.
    fn close(&mut self) -> Open {
        let closed = self.part;
        self.part = self.outer.pop().unwrap_or(closed);
        closed
    }

    fn add(&mut self, steps: u64) {
        self.part.count = self.part.count.saturating_add(steps);
    }
}

/// What a client's code costs in a run with the most steps.
#[derive(Drop)]
struct Costs {
    /// The parts of each opener and loop.
    parts: Vec<Parts>,
    /// The steps of each instruction.
    steps: Vec<u64>,
}

impl Costs {
    fn new(alloc: Global, client: &Client) -> Result<Costs, AllocError> {
        let count = client.instruction_count() as usize;
        let mut costs = Costs {
            parts: Vec::from_elem(alloc, Parts::NONE, count)?,
            steps: Vec::from_elem(alloc, 0, count)?,
        };
        costs.measure_parts(alloc, client)?;
        costs.measure_steps(alloc, client)?;
        Ok(costs)
    }

    fn parts(&self, at: usize) -> Parts {
        self.parts.get(at).copied().unwrap_or(Parts::NONE)
    }

    fn steps(&self, at: usize) -> u64 {
        self.steps.get(at).copied().unwrap_or(0)
    }

    fn set_parts(&mut self, at: usize, parts: Parts) {
        if let Some(found) = self.parts.get_mut(at) {
            *found = parts;
        }
    }

    fn set_steps(&mut self, at: usize, steps: u64) {
        if let Some(found) = self.steps.get_mut(at) {
            *found = steps;
        }
    }

    /// Adds up the steps of each part, the inner parts first.
    fn measure_parts(&mut self, alloc: Global, client: &Client) -> Result<(), AllocError> {
        let mut walk = Walk::new(alloc, 0);
        for at in 0..client.instruction_count() {
            let Some(instruction) = client.instruction(at) else {
                break;
            };
            let at = at as usize;
            match instruction.operation.row().role {
                Role::Plain => walk.add(1),
                Role::Opener => {
                    walk.add(1);
                    walk.open(at, 0)?;
                }
                Role::Loop => {
                    walk.add(1);
                    let turns = turns_of(instruction);
                    self.set_parts(
                        at,
                        Parts {
                            turns,
                            ..Parts::NONE
                        },
                    );
                    // the beginning of a turn is a step
                    walk.open(at, 1)?;
                }
                Role::Else => {
                    let Open { opener, count } = walk.part;
                    let parts = self.parts(opener);
                    self.set_parts(
                        opener,
                        Parts {
                            first: count,
                            ..parts
                        },
                    );
                    walk.part = Open { opener, count: 0 };
                }
                Role::End => {
                    let Open { opener, count } = walk.close();
                    let parts = Parts {
                        last: count,
                        ..self.parts(opener)
                    };
                    self.set_parts(opener, parts);
                    walk.add(parts.steps());
                }
            }
        }
        Ok(())
    }

    /// Finds how often each instruction runs, the outer parts first.
    fn measure_steps(&mut self, alloc: Global, client: &Client) -> Result<(), AllocError> {
        let mut walk = Walk::new(alloc, 1);
        let mut runs = 1u64;
        for at in 0..client.instruction_count() {
            let Some(instruction) = client.instruction(at) else {
                break;
            };
            let at = at as usize;
            match instruction.operation.row().role {
                Role::Plain => self.set_steps(at, runs),
                Role::Opener => {
                    self.set_steps(at, runs);
                    walk.open(at, runs)?;
                    if self.parts(at).costs_last() {
                        runs = 0;
                    }
                }
                Role::Loop => {
                    walk.open(at, runs)?;
                    let turns = runs.saturating_mul(turns_of(instruction));
                    self.set_steps(at, runs.saturating_add(turns));
                    runs = turns;
                }
                Role::Else => {
                    let Open { opener, count } = walk.part;
                    runs = if self.parts(opener).costs_last() {
                        count
                    } else {
                        0
                    };
                }
                Role::End => runs = walk.close().count,
            }
        }
        Ok(())
    }
}

fn turns_of(instruction: Instruction) -> u64 {
    u64::try_from(instruction.number).unwrap_or(1)
}

/// The program of a client, and the line that each instruction comes from.
#[derive(Clone, Copy)]
pub struct ProgramLines<'a> {
    pub text: &'a [u8],
    /// The lines, from 1.
    pub lines: &'a [usize],
}

/// What each line of a program costs: the most steps that it takes in a run with the most steps, and its instructions. Below are
/// the loops that take a tenth of all steps or more.
pub fn explain_steps(
    alloc: Global,
    program: ProgramLines,
    client: &Client,
    bound: u64,
) -> Result<String, AllocError> {
    let costs = Costs::new(alloc, client)?;
    let mut table = Explanation::new(alloc);
    table.add("     steps  instr.  line\n");
    add_lines(&mut table, alloc, program, costs.steps.as_slice())?;
    add_loops(&mut table, program.lines, client, &costs, bound);
    table.into_text()
}

/// The steps of a line of the program, and the number of its instructions.
#[derive(Clone, Copy)]
struct LineCost {
    steps: u64,
    instructions: usize,
}

impl LineCost {
    const NONE: LineCost = LineCost {
        steps: 0,
        instructions: 0,
    };
}

/// Adds a row for each line of the program.
fn add_lines(
    table: &mut Explanation,
    alloc: Global,
    program: ProgramLines,
    steps: &[u64],
) -> Result<(), AllocError> {
    let text = str::from_utf8(program.text).unwrap_or("");
    let count = text.lines().count().saturating_add(1);
    let mut costs = Vec::from_elem(alloc, LineCost::NONE, count)?;
    add_up(costs.as_mut_slice(), program.lines, steps);
    for (at, source) in text.lines().enumerate() {
        let line = at.saturating_add(1);
        let cost = costs.get(line).copied().unwrap_or(LineCost::NONE);
        add_line(table, line, cost, source);
    }
    Ok(())
}

/// Adds the steps of each instruction to its line.
fn add_up(costs: &mut [LineCost], lines: &[usize], steps: &[u64]) {
    for at in 0..lines.len().min(steps.len()) {
        if let Some(cost) = costs.get_mut(lines[at]) {
            cost.steps = cost.steps.saturating_add(steps[at]);
            cost.instructions = cost.instructions.saturating_add(1);
        }
    }
}

/// Adds the row of a line.
fn add_line(table: &mut Explanation, line: usize, cost: LineCost, source: &str) {
    let LineCost {
        steps,
        instructions,
    } = cost;
    if instructions == 0 {
        table.add("                  ");
    } else {
        write!(table, "{steps:>10}  {instructions:>6}");
    }
    write!(table, "  {line:>4}");
    if !source.is_empty() {
        write!(table, "  {source}");
    }
    table.add("\n");
}

/// Adds a row for each loop that takes a tenth of all steps or more.
fn add_loops(table: &mut Explanation, lines: &[usize], client: &Client, costs: &Costs, bound: u64) {
    for at in 0..client.instruction_count() {
        let Some(instruction) = client.instruction(at) else {
            break;
        };
        if instruction.operation.row().role == Role::Loop {
            let line = lines.get(at as usize).copied().unwrap_or(0);
            add_loop(table, line, costs, at as usize, bound);
        }
    }
}

/// Adds a row for the loop of this instruction and this line, if it takes a tenth of all steps or more.
fn add_loop(table: &mut Explanation, line: usize, costs: &Costs, at: usize, bound: u64) {
    let parts = costs.parts(at);
    let Parts { last, turns, .. } = parts;
    // each time the loop takes a step to begin, and one for each turn
    let runs = costs.steps(at).checked_div(turns.saturating_add(1));
    let steps = runs.unwrap_or(0).saturating_mul(parts.steps());
    if steps > 0 && steps >= bound / 10 {
        write!(
            table,
            "the loop of line {line}: {turns} turns of {last} steps, {steps} of {bound} steps\n"
        );
    }
}
