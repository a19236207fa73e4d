// Random scripts.
use crate::random::Random;
use std::alloc::{AllocError, Global};
use std::fmt::Write;

const VARIABLES: [&str; 4] = ["a", "b", "c", "d"];

const TABLES: [&str; 2] = ["s", "t"];

const OPERATORS: [&str; 4] = ["<", "<=", ">", ">="];

/// Blocks nest at most this deep.
const MOST_OPEN: usize = 3;

/// A condition: the variable that it begins with, and whether it wants it below something.
#[derive(Clone, Copy)]
struct Condition {
    variable: u32,
    is_below: bool,
}

/// An open block: the first or the other one of an `if`, or that of a `while`.
#[derive(Clone, Copy)]
enum Block {
    First,
    Other,
    Loop(Condition),
}

/// A script that is being drawn, with the counts of its variables and tables and its open blocks.
#[derive(Drop)]
struct Generator {
    random: Random,
    text: String,
    variables: u32,
    tables: u32,
    blocks: Vec<Block>,
}

fn name_at(names: &[&'static str], number: u32) -> &'static str {
    names.get(number as usize).copied().unwrap_or("a")
}

fn sign(is_plus: bool) -> char {
    if is_plus { '+' } else { '-' }
}

impl Generator {
    fn new(alloc: Global, seed: u32) -> Generator {
        let mut random = Random::new(seed);
        let variables = 1 + random.below(4);
        let tables = random.below(4).min(2);
        Generator {
            random,
            text: String::new(alloc),
            variables,
            tables,
            blocks: Vec::new(alloc),
        }
    }

    fn constant(&mut self) -> i64 {
        self.random.between(-2, 7)
    }

    fn variable(&mut self) -> &'static str {
        name_at(&VARIABLES, self.random.below(self.variables))
    }

    /// Adds a text and a range.
    fn add_range(&mut self, text: &str) -> Result<(), AllocError> {
        let low = self.constant();
        let high = low.saturating_add(self.random.between(0, 11));
        write!(self.text, "{text}{low}..{high}")
    }

    /// Adds the variables. Some have one start value.
    fn add_variables(&mut self) -> Result<(), AllocError> {
        for number in 0..self.variables {
            let name = name_at(&VARIABLES, number);
            let low = self.constant();
            let high = low.saturating_add(self.random.between(-3, 12).max(0));
            writeln!(self.text, "var {name} = {low}..{high};")?;
        }
        Ok(())
    }

    fn add_tables(&mut self) -> Result<(), AllocError> {
        for number in 0..self.tables {
            let size = 2 + self.random.below(11);
            write!(self.text, "table {}[{size}]", name_at(&TABLES, number))?;
            self.add_range(" = ")?;
            self.text.push_str(";\n")?;
        }
        Ok(())
    }

    /// Adds a table read, or a constant where there is no table.
    fn add_read(&mut self) -> Result<(), AllocError> {
        let index = self.variable();
        if self.tables == 0 {
            let constant = self.random.between(-3, 3);
            return write!(self.text, "{constant}");
        }
        let table = name_at(&TABLES, self.random.below(self.tables));
        write!(self.text, "{table}[{index}]")
    }

    /// Adds a right side.
    fn add_side(&mut self) -> Result<(), AllocError> {
        let name = self.variable();
        let constant = self.constant();
        match self.random.below(13) {
            0 => write!(self.text, "{constant}"),
            1 => write!(self.text, "{name}"),
            2 | 3 => write!(self.text, "{name} + {}", self.random.below(5)),
            4 => write!(self.text, "{name} - {}", self.random.below(5)),
            5 => write!(self.text, "-{name}"),
            6 | 7 => self.add_range("hear "),
            8 => self.add_range("sense "),
            _ => self.add_read(),
        }
    }

    fn add_assignment(&mut self) -> Result<(), AllocError> {
        let name = self.variable();
        write!(self.text, "{name} := ")?;
        self.add_side()?;
        self.text.push_str(";\n")
    }

    /// Adds what a variable is compared with: a constant, or another variable where there are two.
    fn add_limit(&mut self, variable: u32) -> Result<(), AllocError> {
        if self.variables < 2 || self.random.one_in(2) {
            let constant = self.constant();
            return write!(self.text, "{constant}");
        }
        let distance = self.random.below(self.variables.saturating_sub(1));
        let other = variable.saturating_add(distance).saturating_add(1);
        let other = other.checked_rem(self.variables).unwrap_or(0);
        self.text.push_str(name_at(&VARIABLES, other))
    }

    /// Adds a keyword, a condition and the beginning of a block.
    fn add_condition(&mut self, keyword: &str) -> Result<Condition, AllocError> {
        let variable = self.random.below(self.variables);
        let name = name_at(&VARIABLES, variable);
        let operator = self.random.below(4);
        write!(
            self.text,
            "{keyword} {name} {} ",
            name_at(&OPERATORS, operator)
        )?;
        self.add_limit(variable)?;
        self.text.push_str(" {\n")?;
        let is_below = operator < 2;
        Ok(Condition { variable, is_below })
    }

    /// Adds what a loop does last: mostly something by which its condition may fail.
    fn add_last(&mut self, condition: Condition) -> Result<(), AllocError> {
        let name = name_at(&VARIABLES, condition.variable);
        match self.random.below(8) {
            0 => Ok(()),
            1..=3 => {
                let other = self.variable();
                let sign = sign(self.random.one_in(2));
                let step = self.random.below(4);
                write!(self.text, "{other} := {other} {sign} {step};\n{name} := ")?;
                self.add_range("hear ")?;
                self.text.push_str(";\n")
            }
            _ => {
                let sign = sign(condition.is_below != self.random.one_in(6));
                let step = 1 + self.random.below(3);
                writeln!(self.text, "{name} := {name} {sign} {step};")
            }
        }
    }

    fn end_block(&mut self, block: Block) -> Result<(), AllocError> {
        if let Block::Loop(condition) = block {
            self.add_last(condition)?;
        }
        self.text.push('}')
    }

    /// Ends the innermost block, maybe with an `else` behind it.
    fn close_block(&mut self, block: Block) -> Result<(), AllocError> {
        self.end_block(block)?;
        if matches!(block, Block::First) && self.random.one_in(2) {
            self.text.push_str(" else {")?;
            self.blocks.push(Block::Other)?;
        }
        self.text.push('\n')
    }

    /// Adds one step: an assignment, or the beginning or the end of a block.
    fn add_step(&mut self) -> Result<(), AllocError> {
        let can_open = self.blocks.len() < MOST_OPEN;
        match self.random.below(12) {
            0 | 1 if can_open => {
                let condition = self.add_condition("while")?;
                self.blocks.push(Block::Loop(condition))?;
                Ok(())
            }
            2 | 3 if can_open => {
                self.add_condition("if")?;
                self.blocks.push(Block::First)?;
                Ok(())
            }
            4 | 5 => match self.blocks.pop() {
                Some(block) => self.close_block(block),
                None => self.add_assignment(),
            },
            _ => self.add_assignment(),
        }
    }

    fn add_steps(&mut self, steps: u32) -> Result<(), AllocError> {
        for _ in 0..steps {
            self.add_step()?;
        }
        Ok(())
    }

    fn end_all(&mut self) -> Result<(), AllocError> {
        for _ in 0..self.blocks.len() {
            if let Some(block) = self.blocks.pop() {
                self.end_block(block)?;
            }
        }
        Ok(())
    }
}

/// The script of a seed: most are short, every eighth is long.
pub fn random_script(alloc: Global, seed: u32) -> Result<String, AllocError> {
    let mut generator = Generator::new(alloc, seed);
    generator.add_variables()?;
    generator.add_tables()?;
    let steps = match seed % 8 {
        0 => 12 + generator.random.below(18),
        _ => 1 + generator.random.below(11),
    };
    generator.add_steps(steps)?;
    generator.end_all()?;
    Ok(generator.text)
}
