//! Tests of commands and of whole sessions: which lines can be read, what commands and answers look
//! like, and what a line and a command allocate; the output for an input, streams that fail, and
//! memory that runs out. Sessions of all commands and random sessions are compared with a plain
//! machine (`machine`), with ample memory and with each request refused in turn.
#![tactic(auto)]

#[cfg(test)]
mod answered;
#[cfg(test)]
mod answers;
#[cfg(test)]
mod command_costs;
#[cfg(test)]
mod compared;
#[cfg(test)]
mod costs;
#[cfg(test)]
mod drive_memory;
#[cfg(test)]
mod drives;
#[cfg(test)]
mod line_costs;
#[cfg(test)]
mod lines;
#[cfg(test)]
mod machine;
#[cfg(test)]
mod one_by_one;
#[cfg(test)]
mod random;
#[cfg(test)]
mod readme;
#[cfg(test)]
mod refused_sessions;
#[cfg(test)]
mod runs;
#[cfg(test)]
mod served;
#[cfg(test)]
mod sessions;
#[cfg(test)]
mod shown;
#[cfg(test)]
mod streams;
#[cfg(test)]
mod within;
