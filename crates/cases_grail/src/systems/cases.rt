use dual_simplex::{Row, Summand, System};
use std::alloc::{AllocError, Global};
use std::io;
use std::io::ErrorKind;

/// A system by its name.
#[derive(Drop)]
pub(crate) struct Case {
    pub(crate) name: String,
    pub(crate) system: System,
}

impl Case {
    /// A system without rows.
    pub(crate) fn new(alloc: Global, name: &str, costs: &[&str]) -> io::Result<Case> {
        let mut system = System {
            unknowns: 0,
            costs: Vec::new(alloc),
            rows: Vec::new(alloc),
        };
        for cost in costs {
            add_unknown(&mut system, number_of(cost)?)?;
        }
        Ok(Case {
            name: String::from_str(alloc, name)?,
            system,
        })
    }

    pub(crate) fn add_row(&mut self, alloc: Global, least: &str, words: &[&str]) -> io::Result<()> {
        let mut terms = Vec::new(alloc);
        for word in words {
            terms.push(term_of(word)?)?;
        }
        let least = number_of(least)?;
        self.system.rows.push(Row { terms, least })?;
        Ok(())
    }

    /// Adds so many unknowns of cost 1, each with a row that makes it 1 at least.
    pub(crate) fn add_unknowns(&mut self, alloc: Global, count: &str) -> io::Result<()> {
        for _ in 0..number_of(count)? {
            let term = Summand {
                unknown: self.system.unknowns,
                factor: 1,
            };
            add_unknown(&mut self.system, 1)?;
            let terms = vec![in alloc; term]?;
            self.system.rows.push(Row { terms, least: 1 })?;
        }
        Ok(())
    }
}

fn add_unknown(system: &mut System, cost: i64) -> Result<(), AllocError> {
    system.unknowns = system.unknowns.saturating_add(1);
    system.costs.push(cost)?;
    Ok(())
}

fn number_of(word: &str) -> io::Result<i64> {
    match word.parse::<i64>() {
        Ok(number) => Ok(number),
        Err(_) => Err(ErrorKind::InvalidInput.into()),
    }
}

// The term of a word as `2:-1`: the number of an unknown, and its factor.
fn term_of(word: &str) -> io::Result<Summand> {
    let (unknown, factor) = match word.split_once(":") {
        Some(parts) => parts,
        None => return Err(ErrorKind::InvalidInput.into()),
    };
    match (unknown.parse::<u32>(), factor.parse::<i64>()) {
        (Ok(unknown), Ok(factor)) => Ok(Summand { unknown, factor }),
        _ => Err(ErrorKind::InvalidInput.into()),
    }
}
