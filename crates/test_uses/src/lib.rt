//! Tests of what tables are used for, where rows of data do not say it: long chains under walks,
//! `prune`, `retain`, a builder and the program `type_table`; the program over readers and writers
//! that fail, and over each change of a byte; `decode`, `prune` and the program over tables that
//! are cut or go on; programs that write a table and print it; types that are found and written;
//! values that a program makes; what exports return; and tables in metadata, without docs and
//! compared.
#![tactic(auto)]

#[cfg(test)]
mod asserts;
#[cfg(test)]
mod callers;
#[cfg(test)]
mod chains;
#[cfg(test)]
mod changes;
#[cfg(test)]
mod described;
#[cfg(test)]
mod entries;
#[cfg(test)]
mod exports;
#[cfg(test)]
mod metadata;
#[cfg(test)]
mod paths;
#[cfg(test)]
mod runs;
#[cfg(test)]
mod streams;
