mod answers;
mod books;
mod kinds;
mod settling;
