//! Which queues the tables of a checkpoint tell.
ghost use Rattle.queue_tables.specs.Laws.{TellTheirQueue, GiveTheirQueue, TellAlike, PagesTellAlike, EmptyTellEmpty, SoundTellSound, SoundHaveOrders, ToldAreSound, EmptyHaveOrders};

use ckpt_pages::{law_of_checkpoints, law_of_empty_tables, law_of_sound_tables};

/// Tables tell the queue that they give with texts of as many lines as their slots say, and a queue that they tell is
/// the one that they give with its texts. Queues that the same tables tell, or the same pages, differ in their texts
/// alone. Empty tables tell the empty queue, and tables without a fault a queue with the sound parts.
pub fn law_of_told_queues()
    ensures tell { TellTheirQueue }
    ensures give { GiveTheirQueue }
    ensures alike { TellAlike }
    ensures pages { PagesTellAlike }
    ensures empty { EmptyTellEmpty }
    ensures sound { SoundTellSound }
{
    law_of_checkpoints();
    law_of_empty_tables();
    law_of_sound_tables();
}

/// Tables without a fault have no order twice, and each order is below the next one; so have empty tables. Tables that
/// have such orders and tell a queue with the sound parts have no fault.
pub fn law_of_orders()
    ensures sound { SoundHaveOrders }
    ensures told { ToldAreSound }
    ensures empty { EmptyHaveOrders }
{}
