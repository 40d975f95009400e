//! Tests of the runs from a reader to a writer: checks of worked histories and of several texts, witnesses, explanations,
//! recordings, and failing devices.
#![tactic(auto)]

#[cfg(test)]
mod asking;
#[cfg(test)]
mod check_jobs;
#[cfg(test)]
mod checks;
#[cfg(test)]
mod counting;
#[cfg(test)]
mod cut_jobs;
#[cfg(test)]
mod devices;
#[cfg(test)]
mod explaining;
#[cfg(test)]
mod files;
#[cfg(test)]
mod following;
#[cfg(test)]
mod following_folders;
#[cfg(test)]
mod jobs;
#[cfg(test)]
mod long_texts;
#[cfg(test)]
mod mapping;
#[cfg(test)]
mod names;
#[cfg(test)]
mod options;
#[cfg(test)]
mod pace;
#[cfg(test)]
mod record_jobs;
#[cfg(test)]
mod recordings;
#[cfg(test)]
mod refused_words;
#[cfg(test)]
mod reports;
#[cfg(test)]
mod rounds;
#[cfg(test)]
mod shrinking;
#[cfg(test)]
mod stamped_following;
#[cfg(test)]
mod stores;
#[cfg(test)]
mod telling;
#[cfg(test)]
mod witness_drawing;
