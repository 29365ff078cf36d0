//! Trials: worked examples of runs, benches, records, relations, coherence orders, texts, sentences and models, each proved safe and then run.
#![tactic(auto)]

#[cfg(test)]
mod benches;
#[cfg(test)]
mod models;
#[cfg(test)]
mod orders;
#[cfg(test)]
mod records;
#[cfg(test)]
mod relations;
#[cfg(test)]
mod rules;
#[cfg(test)]
mod sentences;
#[cfg(test)]
mod texts;
#[cfg(test)]
mod worked;
