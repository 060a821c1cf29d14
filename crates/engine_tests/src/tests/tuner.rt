//! Tests below the engines: lines, profiles, histories, sheets and the tuner, by worked values, and each call once.
mod evaluations;
mod histories;
mod lines;
mod sizes_and_profiles;
mod verdicts;
