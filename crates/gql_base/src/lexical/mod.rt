//! Texts, and the tokens that they are made of (GraphQL October 2021, 2.1 and 2.9).

pub mod blocks;
mod characters;
pub mod laws;
pub mod lexing;
pub mod literals;
mod numbers;
mod strings;
pub mod text;
pub mod token;
pub mod uses;
