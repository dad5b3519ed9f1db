//! What a search found, as far as tests rest on it.

ghost use Rattle.std.specs.Prelude.{◌≡◌, [], false, true};
ghost use Rattle.bpf_check.specs.Findings.{no_races};

use bpf_explore::{Answer, Explored, ExploredPatiently, Hung};
use std::alloc::Global;
use std::marker::Model;

/// What a search found of data races.
#[derive(Drop)]
pub struct Raced {
    /// A line each, as it is printed after a test.
    pub lines: String,
    /// Whether there is one.
    pub some: bool,
    /// Whether they are all.
    pub all: bool,
}

impl Model for Raced {
    ghost use Rattle.std.specs.Prelude.{string_bytes};
    ghost use Rattle.bpf_check.specs.Findings.{Raced};

    ghost Value = { Raced };

    ghost view = { λ r. record {
      lines = string_bytes r.lines;
      some = r.some;
      all = r.all;
    } };
}

impl Raced {
    /// None was looked for.
    pub fn none(alloc: Global) -> Raced
        ensures { result ≡ no_races }
    {
        Raced {
            lines: String::new(alloc),
            some: false,
            all: false,
        }
    }
}

/// What a search found of the outcomes, of what never ends, and of data races.
#[derive(Drop)]
pub struct Findings {
    answers: Vec<Answer>,
    all: bool,
    states: usize,
    patient: bool,
    hung: Vec<Hung>,
    raced: Raced,
}

impl Model for Findings {
    ghost use Rattle.bpf_check.specs.Findings.{Findings};

    ghost Value = { Findings };

    ghost view = { λ f. record {
      answers = f.answers.items;
      all = f.all;
      states = f.states;
      patient = f.patient;
      hung = f.hung.items;
      raced = f.raced;
    } };
}

impl Findings {
    /// What an exact search found, and what one found of races.
    pub fn new(alloc: Global, explored: Explored, raced: Raced) -> Findings
        ensures { result ≡ record {
          answers = explored.answers.items;
          all = explored.all;
          states = explored.states;
          patient = false;
          hung = [];
          raced = raced;
        } }
    {
        Findings {
            answers: explored.answers,
            all: explored.all,
            states: explored.states,
            patient: false,
            hung: Vec::new(alloc),
            raced,
        }
    }

    /// What a patient search found, and what one found of races.
    pub fn patient(explored: ExploredPatiently, raced: Raced) -> Findings
        ensures { result ≡ record {
          answers = explored.answers.items;
          all = explored.all;
          states = explored.states;
          patient = true;
          hung = explored.hung.items;
          raced = raced;
        } }
    {
        Findings {
            answers: explored.answers,
            all: explored.all,
            states: explored.states,
            patient: true,
            hung: explored.hung,
            raced,
        }
    }

    /// The outcomes.
    pub fn answers(&self) -> &[Answer]
        ensures { result.now ≡ self.now.answers }
    {
        &self.answers
    }

    /// Whether they are all.
    pub fn all(&self) -> bool
        ensures { result ≡ self.now.all }
    {
        self.all
    }

    /// How many states were kept.
    pub fn states(&self) -> usize
        ensures { result ≡ self.now.states }
    {
        self.states
    }

    /// Whether outcomes are those in which no budget is used up, and states were looked for that are
    /// hung.
    pub fn is_patient(&self) -> bool
        ensures { result ≡ self.now.patient }
    {
        self.patient
    }

    /// Schedules to states from which no end can be reached.
    pub fn hung(&self) -> &[Hung]
        ensures { result.now ≡ self.now.hung }
    {
        &self.hung
    }

    /// What was found of data races.
    pub fn raced(&self) -> &Raced
        ensures { result.now ≡ self.now.raced }
    {
        &self.raced
    }
}
