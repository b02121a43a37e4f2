//! What the law's worksheets say that nothing prints: the lines of need analysis and the edges of the book's tables, the decision on
//! an index, the worksheet of a withdrawal, rounds of awards, lifetime units, tables of rows by key, the room for a text's rows, and a full office.
//! Expected figures are worked by hand from the specimen book. This library has tests alone.
#![tactic(auto)]

#[cfg(test)]
mod applications;
#[cfg(test)]
mod edges;
#[cfg(test)]
mod full;
#[cfg(test)]
mod households;
#[cfg(test)]
mod rounds;
#[cfg(test)]
mod rows;
#[cfg(test)]
mod texts;
#[cfg(test)]
mod units;
#[cfg(test)]
mod worksheets;
