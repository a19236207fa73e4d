// What a graph has besides the listing, a line each with a line break before it.
use base::Place;
use language_theory::Edge;
use listing::parts::{Name, Span, name_at};
use parser::{Table, Variable};
use script_graph::graph::Graph;
use std::fmt;

// The declarations, the table reads, where each edge was made, and the edges to each point.
#[derive(Drop)]
pub struct Details<'a>(pub &'a Graph);

// The variables with their ranges.
#[derive(Drop)]
struct Variables<'a>(&'a [Variable]);

// The tables with their sizes and ranges. Not one with the variables: in the middle of its line a table has its size.
#[derive(Drop)]
struct Tables<'a>(&'a [Table]);

// The table reads: the point before each, its table, its index, and the line and column of the index name.
#[derive(Drop)]
struct TableReads<'a>(&'a Graph);

// The line and column of the statement that made each edge.
#[derive(Drop)]
struct Places<'a>(&'a [Edge]);

// Each point with the points that its edges come from, as 1<0<3.
#[derive(Drop)]
struct Entries<'a>(&'a Graph);

// The points that edges come from, as <0<3.
#[derive(Drop)]
struct Sources<'a>(&'a [Edge]);

impl fmt::Display for Details<'_> {
    fn fmt<W: fmt::Write>(&self, f: &mut fmt::Formatter<W>) -> fmt::Result {
        let graph = self.0;
        let variables = Variables(graph.variables());
        let tables = Tables(graph.tables());
        let reads = TableReads(graph);
        let places = Places(graph.edges());
        let entries = Entries(graph);
        write!(f, "{variables}{tables}{reads}{places}{entries}")
    }
}

impl fmt::Display for Variables<'_> {
    fn fmt<W: fmt::Write>(&self, f: &mut fmt::Formatter<W>) -> fmt::Result {
        for variable in self.0 {
            let name = Name(&variable.name);
            write!(f, "\nvar {name} = {}", Span(variable.range))?;
        }
        Ok(())
    }
}

impl fmt::Display for Tables<'_> {
    fn fmt<W: fmt::Write>(&self, f: &mut fmt::Formatter<W>) -> fmt::Result {
        for table in self.0 {
            let name = Name(&table.name);
            write!(f, "\ntable {name}[{}] = {}", table.size, Span(table.range))?;
        }
        Ok(())
    }
}

impl fmt::Display for TableReads<'_> {
    fn fmt<W: fmt::Write>(&self, f: &mut fmt::Formatter<W>) -> fmt::Result {
        for lookup in self.0.lookups() {
            let table = name_at(self.0.tables(), lookup.table);
            let index = name_at(self.0.variables(), lookup.index);
            let point = lookup.point;
            let Place { line, column } = lookup.place;
            write!(
                f,
                "\nread of {table} by {index} at point {point}, index at {line} {column}"
            )?;
        }
        Ok(())
    }
}

impl fmt::Display for Places<'_> {
    fn fmt<W: fmt::Write>(&self, f: &mut fmt::Formatter<W>) -> fmt::Result {
        f.write_str("\nedges made at")?;
        for edge in self.0 {
            write!(f, " {}:{}", edge.place.line, edge.place.column)?;
        }
        Ok(())
    }
}

impl fmt::Display for Entries<'_> {
    fn fmt<W: fmt::Write>(&self, f: &mut fmt::Formatter<W>) -> fmt::Result {
        f.write_str("\nedges into")?;
        // By number: points have nothing but numbers.
        for point in 0..self.0.points() {
            write!(
                f,
                " {point}{}",
                Sources(self.0.incoming(point).unwrap_or(&[]))
            )?;
        }
        Ok(())
    }
}

impl fmt::Display for Sources<'_> {
    fn fmt<W: fmt::Write>(&self, f: &mut fmt::Formatter<W>) -> fmt::Result {
        for edge in self.0 {
            write!(f, "<{}", edge.source)?;
        }
        Ok(())
    }
}
