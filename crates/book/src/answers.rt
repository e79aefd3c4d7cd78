// What a farm is told of a message.
use sheets::MessageRefusal;

// `Ok` where the message is taken, and otherwise why it is refused.
pub type Answer = Result<(), MessageRefusal>;
