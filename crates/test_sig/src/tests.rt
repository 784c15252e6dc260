mod declarations;
mod overloads;
mod world;
