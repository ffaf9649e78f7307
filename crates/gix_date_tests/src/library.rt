//! What the contracts of the libraries leave open: names, traits, texts of faults, and outside values.
mod ages;
mod clocks;
mod faults;
mod git_dates;
mod git_formats;
mod headers;
mod idents;
mod line_dates;
mod lines;
mod names;
mod parts;
mod prints;
mod signatures;
mod texts;
mod times;
