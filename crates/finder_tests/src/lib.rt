//! What only a test can do over the public calls of `gf_edges`, `gf_files` and `gf_find`: see what comes back of the
//! system's files and streams, which files are opened and how much is read of one, hold workers until they have met, count the
//! nodes that a search judges, and read files and reports of a size that no case has. In come words and files, in memory over
//! shelves, an opener and gates that note what is asked of them, or of the system. One call has clauses too: those of `finder`
//! over the files of any opener. It holds tests alone, and stands beside these crates so that they are not proved once more
//! with them; what a case can show belongs to `cases/`.
#![tactic(auto)]

#[cfg(test)]
mod call_tests;
#[cfg(test)]
mod calls;
#[cfg(test)]
mod edge_tests;
#[cfg(test)]
mod file_tests;
#[cfg(test)]
mod inputs;
#[cfg(test)]
mod node_tests;
#[cfg(test)]
mod opener_tests;
#[cfg(test)]
mod thread_tests;
