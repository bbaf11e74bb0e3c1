//! Which tree is which table: the tables are made in this order.

/// What the database says of itself: its format, and how many seconds a window is long.
pub const META: u32 = 0;

/// The clients' keys, each as its SHA-256, by the numbers of the clients.
pub const CLIENT: u32 = 1;

/// Accounts, by the numbers of their clients.
pub const ACCOUNT: u32 = 2;

/// Open grants, by the numbers of their calls.
pub const OPEN_GRANT: u32 = 3;

/// How many tables there are.
pub const TABLES: u32 = 4;
