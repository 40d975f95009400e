//! Tests of the public calls on views, histories, texts, reports, verdicts, explanations and shapes.
#![tactic(auto)]

#[cfg(test)]
mod counts;
#[cfg(test)]
mod explanations;
#[cfg(test)]
mod histories;
#[cfg(test)]
mod many_writers;
#[cfg(test)]
mod mistakes;
#[cfg(test)]
mod reports;
#[cfg(test)]
mod shapes;
#[cfg(test)]
mod texts;
#[cfg(test)]
mod verdicts;
#[cfg(test)]
mod views;
