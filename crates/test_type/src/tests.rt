mod keeping;
mod settling;
mod typing;
mod world;
