// Tests at the edges of what is taken and refused, a module for each layer.
#![tactic(auto)]

#[cfg(test)]
mod acts;
#[cfg(test)]
mod clerks;
#[cfg(test)]
mod extracts_drawn;
#[cfg(test)]
mod files;
#[cfg(test)]
mod filings_read;
#[cfg(test)]
mod openings;
#[cfg(test)]
mod registers;
#[cfg(test)]
mod summer;
