//! The grammar of descriptions: what their tokens and items are, how bytes are split into tokens, the
//! machine that accepts the sentences, and the definitions that reading, resolving, and spelling share,
//! with their laws.
#![tactic(auto)]

mod chain;
mod cutting;
mod expected;
mod item;
pub mod laws;
mod state;
mod tokens;
mod transition;
mod word;

pub use chain::chain_block;
pub use cutting::{byte_at, digits, lexeme_at};
pub use expected::Expected;
pub use item::{Item, Numeral, Step, Steps};
pub use state::State;
pub use tokens::{Kind, Lexeme, Token, Tokens, first_token};
pub use word::after_white;
