//! What no clause says and no command shows: links against a plain search, proposals that certify themselves, texts on which RFC 4180
//! says nothing, the host's files and streams, and that calls which no command makes succeed in ample memory. The tests stand in a
//! crate of their own, in a module for each matter: a crate with tests is proved a second time, and so none of the others is for these.
#![tactic(auto)]

#[cfg(test)]
mod canons;
#[cfg(test)]
mod certificates_within_capacities;
#[cfg(test)]
mod forests;
#[cfg(test)]
mod greatest_links;
#[cfg(test)]
mod host_adapters;
#[cfg(test)]
mod memory_stores;
#[cfg(test)]
mod proposed_links;
#[cfg(test)]
mod records_of_texts;
#[cfg(test)]
mod rows_by_key;
