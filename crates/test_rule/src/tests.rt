mod codes;
mod order;
mod rows;
mod steps;
mod world;
