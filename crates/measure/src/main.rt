// Makes a table of 512 terms and computes the precondition of one of them as many times as told. The two words that it is
// given are the number of the term and how many times; instructions are counted by running it with other words.

#![tactic(auto)]

use anyhow::anyhow;
use precondition::copies::Copies;
use precondition::scratch::precondition;
use std::alloc::{AllocError, Global};
use std::env;
use terms::{Assignment, Term};

// A variable, a value, their equation, and then each term over the one before it, so that the term of number N is made of all
// up to it.
fn table(heap: Global) -> Result<Vec<Term>, AllocError> {
    let mut terms = vec![in heap; Term::Var(0), Term::Val(0, 0), Term::Eq(0, 1)]?;
    for n in 2..511 {
        terms.push(if n % 2 == 0 {
            Term::Not(n)
        } else {
            Term::And(n, 2)
        })?;
    }
    Ok(terms)
}

// The number that a word is, or the default if there is no word.
fn number_or(word: Option<String>, default: u16) -> anyhow::Result<u16> {
    let Some(word) = word else {
        return Ok(default);
    };
    Ok(word.as_str().parse::<u16>()?)
}

fn run(rt: &HostRuntime) -> anyhow::Result<()> {
    let heap = rt.alloc();
    let mut words = env::args(rt)?;
    let _program = words.next();
    let formula = number_or(words.next(), 511)?;
    let times = number_or(words.next(), 1)?;
    let terms = table(heap)?;
    let copies = Copies::new(heap, terms.as_slice()).map_err(|_| anyhow!("the table is refused"))?;
    let sets = [Assignment {
        variable: 0,
        term: 1,
    }];
    let mut new = 0;
    for _ in 0..times {
        let answer = precondition(heap, &copies, &sets, formula).map_err(|_| anyhow!(
            "the precondition is refused"
        ))?;
        new = answer.scratch.len();
    }
    println!(rt; "term {formula}, new terms {new}")?;
    Ok(())
}

fn main(rt: HostRuntime) -> anyhow::Result<()> {
    run(&rt)
}
